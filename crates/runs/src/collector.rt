// "While the walk goes on, one open run is updated in place at every leaf entry."
ghost use Rattle.std.specs.Prelude.{◌≡◌, ◌<◌};
ghost use Rattle.image.specs.Listing.{run};
ghost use Rattle.runs.specs.Open.{stepped};

use crate::next::stepped;
use crate::{ListedRun, Run};

// The collector's step: the open run is updated behind its reference, the form that document 01 names.
fn step(r: &mut Run, x: ListedRun)
    requires { r.old.written < 4294967295 }
    ensures { r.new ≡ stepped r.old (run x.start x.pair) }
{
    *r = stepped(*r, x);
}

// Lends the open run to the step. This contract names no reference: callers hand the run on by value, in registers.
pub fn collect(r: Run, x: ListedRun) -> Run
    requires { r.written < 4294967295 }
    ensures { result ≡ stepped r (run x.start x.pair) }
{
    let mut next = r;
    step(&mut next, x);
    next
}
