// "an entry adds (v, 1), a withdrawal (−v, −1), whether or not such a booking is live"
ghost use Rattle.std.specs.Prelude.{◌≡◌, true};
ghost use Rattle.rule.specs.Time.{value_ok};
ghost use Rattle.calls.specs.Bookings.{side_of};
ghost use Rattle.calls.specs.Changes.{effect};

use calls::bookings::{Booking, Side};
use rule::Pair;

pub(crate) fn effect(booking: Booking) -> Pair
    requires { value_ok booking.value ≡ true }
    ensures { result ≡ effect (side_of booking.side) booking.value }
{
    match booking.side {
        Side::Entering => Pair {
            sum: booking.value,
            count: 1,
        },
        Side::Withdrawing => Pair {
            sum: -booking.value,
            count: -1,
        },
    }
}
