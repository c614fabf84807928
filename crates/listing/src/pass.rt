// What each of the two passes does with a run: one counts it, and the other writes it too. A walk is written once, and compiled for each
// pass: the one that counts looks at no output, and no entry asks which pass it is.
ghost use Rattle.std.specs.Prelude.{◌≡◌, ◌+◌, ◌*◌, ◌≤◌, ◌<◌, Bool, true, false, cond, length};
ghost use Rattle.image.specs.Listing.{run};
ghost use Rattle.runs.specs.Open.{goes_on, stepped, output_after};

use runs::collector::collect;
use runs::output::emit;
use runs::{ListedRun, Run};

pub(crate) trait Pass {
    // Whether runs are written, or only counted.
    ghost writes: { Bool };

    // One leaf entry more: the open run after it.
    fn meet(out: &mut [u8], last: Run, x: ListedRun) -> Run
        requires counted { last.written < 4294967295 }
        requires room { writes ≡ true
            → goes_on last (run x.start x.pair) ≡ false
            → 16 * last.written + 16 ≤ length out.old }
        ensures stepped { result ≡ stepped last (run x.start x.pair) }
        ensures written { out.new
            ≡ cond writes (output_after last (run x.start x.pair) out.old) out.old };
}

pub(crate) struct Counting;

impl Pass for Counting {
    ghost writes = { false };

    fn meet(_out: &mut [u8], last: Run, x: ListedRun) -> Run {
        collect(last, x)
    }
}

pub(crate) struct Writing;

impl Pass for Writing {
    ghost writes = { true };

    fn meet(out: &mut [u8], last: Run, x: ListedRun) -> Run {
        emit(out, last, x);
        collect(last, x)
    }
}
