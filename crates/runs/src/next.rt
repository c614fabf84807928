// One leaf entry more, as a function of the open run by value.
ghost use Rattle.std.specs.Prelude.{◌≡◌, ◌<◌};
ghost use Rattle.image.specs.Listing.{run};
ghost use Rattle.runs.specs.Open.{goes_on, stepped};

use crate::{ListedRun, Run};

// Whether the open run goes on over a leaf entry; before the first entry no run is open.
#[tactic(auto, using(rule::proofs::Laws::pairs_equal), unfolding(crate::specs::Open::goes_on))]
pub(crate) fn goes_on(r: Run, x: ListedRun) -> bool
    ensures { result ≡ goes_on r (run x.start x.pair) }
{
    (0 < r.written) & (r.pair == x.pair)
}

// The open run after the entry: it goes on, or another begins.
#[tactic(auto, unfolding(crate::specs::Open::stepped))]
pub(crate) fn stepped(r: Run, x: ListedRun) -> Run
    requires { r.written < 4294967295 }
    ensures { result ≡ stepped r (run x.start x.pair) }
{
    if goes_on(r, x) {
        return r;
    }
    Run {
        start: x.start,
        pair: x.pair,
        written: r.written + 1,
    }
}
