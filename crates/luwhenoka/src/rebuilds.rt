// A clean image from one that has seen a season of changes. Document 02, (iii).
ghost use Rattle.std.specs.Prelude.{◌≡◌, ◌≤◌};
ghost use Rattle.calls.specs.Refusals.{borrowed};
ghost use Rattle.calls.specs.Numbers.{status_of};
ghost use Rattle.calls.specs.Calls.{rebuild};
ghost use Rattle.luwhenoka.specs.Promises.{Rebuilds};

use crate::audits::check_input;
use crate::judge::judge;
use access::lengths::length_fits;
use audit::verdict::sound_before;
use calls::refusals::{Refusal, status};
use rebuild::targets::fill_target;

// The runs of the source's full listing become the leaf entries of a tight image over all of the target, by half the capacity. The order is
// 16, 17 and 21 of the source, which is judged by document 01's rule, then 16 of the target, and 24; nothing of the target is written before
// all five are passed.
fn rebuild(half: usize, source: &[u8], target: &mut [u8], scratch: &mut [u8]) -> Result<(), Refusal>
    requires { (2 ≤ half) × (half ≤ 12) }
    ensures { record { status = status_of result; target = target.new; scratch = scratch.new }
        ≡ rebuild borrowed half source.now target.old scratch.old }
{
    check_input(half, source, scratch)?;
    if !sound_before(half, source) {
        return Err(Refusal::Unsound);
    }
    if !length_fits(half, target) {
        return Err(Refusal::ImageLength);
    }
    fill_target(half, source, target)
}

// The same by the capacity that the source names.
fn index_rebuild(source: &[u8], target: &mut [u8], scratch: &mut [u8]) -> Result<(), Refusal>
    ensures { Rebuilds source.now target.old scratch.old (status_of result) target.new scratch.new }
{
    rebuild(judge(source)?, source, target, scratch)
}

// What C gets of it. Source, target and scratch are three pieces of memory that don't overlap.
pub fn luw_rebuild(source: &[u8], target: &mut [u8], scratch: &mut [u8]) -> u32
    ensures { Rebuilds source.now target.old scratch.old result target.new
        scratch.new }
{
    status(index_rebuild(source, target, scratch))
}
