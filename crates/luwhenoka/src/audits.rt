// Is an image sound?
ghost use Rattle.std.specs.Prelude.{◌≡◌, ◌≤◌};
ghost use Rattle.image.specs.Images.{pages_in};
ghost use Rattle.calls.specs.Refusals.{first, borrowed, scratch_after};
ghost use Rattle.calls.specs.Numbers.{status_of};
ghost use Rattle.calls.specs.Calls.{audit_input_rows, audit};
ghost use Rattle.luwhenoka.specs.Promises.{Audits};

use crate::judge::judge;
use access::lengths::length_fits;
use calls::refusals::{Refusal, status};
use neighbours::verdict::sound;
use scratch::{clear_scratch, scratch_ok};

// 16 or 17, the rows before an image is read, of an audit and of a rebuild's source. The pages are counted and not marked, so a scratch
// that is long enough is only cleared.
pub(crate) fn check_input(half: usize, img: &[u8], scratch: &mut [u8]) -> Result<(), Refusal>
    requires { half ≤ 12 }
    ensures status { status_of result ≡ first (audit_input_rows borrowed half img.now scratch.old) }
    ensures cleared { scratch.new
        ≡ scratch_after borrowed (audit_input_rows borrowed half img.now scratch.old) (pages_in half img.now) scratch.old }
{
    if !length_fits(half, img) {
        return Err(Refusal::ImageLength);
    }
    if !scratch_ok(half, img, scratch) {
        return Err(Refusal::ScratchShort);
    }
    clear_scratch(half, img, scratch);
    Ok(())
}

// Accepted exactly for an image that is sound by half the capacity. The order is 16, 17, 21.
fn audit(half: usize, img: &[u8], scratch: &mut [u8]) -> Result<(), Refusal>
    requires { (2 ≤ half) × (half ≤ 12) }
    ensures { record { status = status_of result; scratch = scratch.new } ≡ audit borrowed half img.now scratch.old }
{
    check_input(half, img, scratch)?;
    if !sound(half, img) {
        return Err(Refusal::Unsound);
    }
    Ok(())
}

// The same by the capacity that the image names.
fn index_audit(img: &[u8], scratch: &mut [u8]) -> Result<(), Refusal>
    ensures { Audits img.now scratch.old (status_of result) scratch.new }
{
    audit(judge(img)?, img, scratch)
}

// What C gets of it: 0 exactly for a sound image.
pub fn luw_audit(img: &[u8], scratch: &mut [u8]) -> u32
    ensures { Audits img.now scratch.old result scratch.new }
{
    status(index_audit(img, scratch))
}
