// A fresh index in an image of any bytes.
ghost use Rattle.std.specs.Prelude.{◌≡◌, ◌≤◌};
ghost use Rattle.calls.specs.Numbers.{status_of};
ghost use Rattle.calls.specs.Calls.{format};
ghost use Rattle.luwhenoka.specs.Promises.{Formats};

use access::fresh::write_fresh;
use access::lengths::length_fits;
use calls::refusals::{Refusal, status};
use page::capacities::capacity_ok;
use rule::time::{kind_ok, window_ok};

// "Format leaves height 1, changes 0, high mark 2, no chain and root 1, a leaf with entry 0, (0, 0).", by half the capacity, with
// this number in the capacity's field. The order is 16, 14.
fn format(half: usize, img: &mut [u8], kind: u32, window: u32, field: u32) -> Result<(), Refusal>
    requires { (2 ≤ half) × (half ≤ 12) }
    ensures { record { status = status_of result; image = img.new } ≡ format half kind window field img.old }
{
    if !length_fits(half, img) {
        return Err(Refusal::ImageLength);
    }
    let named = kind_ok(kind) & window_ok(window);
    if !named {
        return Err(Refusal::FormatRange);
    }
    write_fresh(half, img, kind, window, field);
    Ok(())
}

// "An odd K or one outside its range gives 14 at format, ahead of 16." Format takes the capacity, and writes it.
fn index_format(img: &mut [u8], kind: u32, window: u32, capacity: u32) -> Result<(), Refusal>
    ensures { Formats kind window capacity img.old (status_of result) img.new }
{
    if !capacity_ok(capacity) {
        return Err(Refusal::FormatRange);
    }
    format((capacity / 2) as usize, img, kind, window, capacity)
}

// What C gets of it.
pub fn luw_format(img: &mut [u8], kind: u32, window: u32, capacity: u32) -> u32
    ensures { Formats kind window capacity img.old result img.new }
{
    status(index_format(img, kind, window, capacity))
}
