// The output: a run that begins is written at once, behind those before it.
ghost use Rattle.std.specs.Prelude.{◌≡◌, false, ◌+◌, ◌*◌, ◌≤◌, length};
ghost use Rattle.fields.specs.Bytes.{patch};
ghost use Rattle.image.specs.Listing.{run, run_bytes};
ghost use Rattle.runs.specs.Open.{goes_on, output_after};

use crate::next::goes_on;
use crate::{ListedRun, RUN_BYTES, RUN_COUNT_OFFSET, RUN_SUM_OFFSET, Run};
use fields::field::Field;

// Writes a run at its offset: "16 bytes each: start (u32), count (i32), sum (i64)".
fn put_run(out: &mut [u8], at: usize, x: ListedRun)
    requires { 16 * at + 16 ≤ length out.old }
    ensures { out.new ≡ patch out.old (16 * at) (run_bytes (run x.start x.pair)) }
{
    let o = RUN_BYTES * at;
    x.start.write_at(out, o);
    x.pair.count.write_at(out, o + RUN_COUNT_OFFSET);
    x.pair.sum.write_at(out, o + RUN_SUM_OFFSET);
}

// Writes the run that begins at a leaf entry, if one does.
#[tactic(auto, unfolding(crate::specs::Open::output_after))]
pub fn emit(out: &mut [u8], r: Run, x: ListedRun)
    requires { goes_on r (run x.start x.pair) ≡ false → 16 * r.written + 16 ≤ length out.old }
    ensures { out.new ≡ output_after r (run x.start x.pair) out.old }
{
    if goes_on(r, x) {
        return;
    }
    put_run(out, r.written as usize, x)
}
