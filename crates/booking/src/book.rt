// Enter and withdraw, which differ in their effect and in row 22.
ghost use Rattle.std.specs.Prelude.{◌≡◌, ◌≤◌};
ghost use Rattle.calls.specs.Refusals.{borrowed};
ghost use Rattle.calls.specs.Numbers.{status_of};
ghost use Rattle.calls.specs.Bookings.{side_of};
ghost use Rattle.calls.specs.Calls.{book};

use crate::changes::make_change;
use crate::input::check_input;
use crate::state::check_state;
use calls::bookings::Booking;
use calls::refusals::Refusal;
use scratch::clear_scratch;

// The order is 16, 17, 11, 13, 21, 22, 23, 24. Nothing of the image is written before all eight are passed; the scratch is cleared
// once the first four are.
pub fn book(
    half: usize,
    img: &mut [u8],
    scratch: &mut [u8],
    booking: Booking,
) -> Result<(), Refusal>
    requires { (2 ≤ half) × (half ≤ 12) }
    ensures { record { status = status_of result; image = img.new; scratch = scratch.new }
        ≡ book borrowed half (side_of booking.side) booking.value booking.start booking.end img.old scratch.old }
{
    check_input(half, img, scratch, booking)?;
    clear_scratch(half, img, scratch);
    let h = check_state(half, img, booking)?;
    make_change(half, img, h, booking);
    Ok(())
}
