// The change that an accepted booking makes.
ghost use Rattle.std.specs.Prelude.{◌≡◌};
ghost use Rattle.calls.specs.Bookings.{side_of};
ghost use Rattle.calls.specs.Calls.{changed};
ghost use Rattle.booking.specs.Rows.{Accepts};

use crate::effects::effect;
use calls::bookings::Booking;
use change::apply::apply;
use page::Head;
use rule::time::effect_end;

// No row turns it back, so that every step finds its pages, and nothing overflows.
pub(crate) fn make_change(half: usize, img: &mut [u8], h: Head, booking: Booking)
    requires { Accepts half (side_of booking.side) booking.value booking.start booking.end img.old h }
    ensures { img.new ≡ changed half (side_of booking.side) booking.value booking.start booking.end img.old }
{
    let end = effect_end(booking.end, h.window);
    apply(half, img, h.kind, booking.start, end, effect(booking))
}
