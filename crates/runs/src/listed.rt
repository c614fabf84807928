// A listing read back from its output.
ghost use Rattle.std.specs.Prelude.{◌≡◌, ◌+◌, ◌*◌, ◌≤◌, length};
ghost use Rattle.image.specs.Listing.{run};
ghost use Rattle.runs.specs.Listed.{run_at};

use crate::{ListedRun, RUN_BYTES, RUN_COUNT_OFFSET, RUN_SUM_OFFSET};
use fields::field::Field;
use rule::Pair;

// The i-th run of a list of them.
pub fn run_at(list: &[u8], i: usize) -> ListedRun
    requires { 16 * i + 16 ≤ length list.now }
    ensures { run result.start result.pair ≡ run_at list.now i }
{
    let o = RUN_BYTES * i;
    ListedRun {
        start: u32::read_at(list, o),
        pair: Pair {
            sum: i64::read_at(list, o + RUN_SUM_OFFSET),
            count: i32::read_at(list, o + RUN_COUNT_OFFSET),
        },
    }
}
