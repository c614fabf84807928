// A booking entered or withdrawn.
ghost use Rattle.calls.specs.Numbers.{status_of};
ghost use Rattle.calls.specs.Bookings.{side_of};
ghost use Rattle.calls.specs.Changes.{entering, withdrawing};
ghost use Rattle.luwhenoka.specs.Promises.{Books};

use crate::judge::judge;
use booking::book::book;
use calls::bookings::{Booking, Side};
use calls::refusals::{Refusal, status};

// Either of the two, by the capacity that the image names.
fn index_book(img: &mut [u8], scratch: &mut [u8], booking: Booking) -> Result<(), Refusal>
    ensures { Books (side_of booking.side) booking.value booking.start booking.end img.old scratch.old
        (status_of result) img.new scratch.new }
{
    book(judge(img)?, img, scratch, booking)
}

// "an entry adds (v, 1)": value v on [s, e). C has two calls, with no side to hand over: so there are two here.
pub fn luw_enter(img: &mut [u8], scratch: &mut [u8], v: i64, s: u32, e: u32) -> u32
    ensures { Books entering v s e img.old scratch.old result img.new scratch.new }
{
    let booking = Booking {
        side: Side::Entering,
        value: v,
        start: s,
        end: e,
    };
    status(index_book(img, scratch, booking))
}

// "a withdrawal (−v, −1), whether or not such a booking is live".
pub fn luw_withdraw(img: &mut [u8], scratch: &mut [u8], v: i64, s: u32, e: u32) -> u32
    ensures { Books withdrawing v s e img.old scratch.old result img.new scratch.new }
{
    let booking = Booking {
        side: Side::Withdrawing,
        value: v,
        start: s,
        end: e,
    };
    status(index_book(img, scratch, booking))
}
