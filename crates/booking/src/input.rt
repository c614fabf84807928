// The rows before a booking goes to work on its image: the scratch is untouched at each.
ghost use Rattle.std.specs.Prelude.{◌≡◌, ◌≤◌};
ghost use Rattle.calls.specs.Refusals.{first, borrowed};
ghost use Rattle.calls.specs.Numbers.{status_of};
ghost use Rattle.calls.specs.Calls.{book_input_rows};

use access::lengths::length_fits;
use calls::bookings::Booking;
use calls::refusals::Refusal;
use rule::time::value_ok;
use scratch::scratch_ok;

// 16, 17, 11 or 13, in this order.
pub(crate) fn check_input(
    half: usize,
    img: &[u8],
    scratch: &[u8],
    booking: Booking,
) -> Result<(), Refusal>
    requires { half ≤ 12 }
    ensures { status_of result
        ≡ first (book_input_rows borrowed half booking.value booking.start booking.end img.now scratch.now) }
{
    if !length_fits(half, img) {
        return Err(Refusal::ImageLength);
    }
    if !scratch_ok(half, img, scratch) {
        return Err(Refusal::ScratchShort);
    }
    if booking.end <= booking.start {
        return Err(Refusal::SpanEmpty);
    }
    if !value_ok(booking.value) {
        return Err(Refusal::ValueRange);
    }
    Ok(())
}
