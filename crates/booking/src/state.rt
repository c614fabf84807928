// "Turned back by the state": the rows that need the whole image.
ghost use Rattle.std.specs.Prelude.{◌≡◌, true, not, ◌&&◌, ◌==◌, ◌≤◌, ◌<◌, IfOk};
ghost use Rattle.image.specs.Images.{length_ok};
ghost use Rattle.calls.specs.Refusals.{first};
ghost use Rattle.calls.specs.Changes.{withdraws};
ghost use Rattle.calls.specs.Numbers.{status_of};
ghost use Rattle.calls.specs.Bookings.{side_of};
ghost use Rattle.calls.specs.Calls.{head, book_state_rows};

use access::pages::page_at;
use calls::bookings::{Booking, Side};
use calls::refusals::Refusal;
use neighbours::verdict::sound;
use page::Head;
use page::heads::read_head;
use page_need::verdict::lacks_pages;
use rule::limits::{MOST_CHANGES, TOTALS};
use rule::time::effect_end;

// 22: a withdrawal asks for an image of totals.
fn kind_refuses(side: Side, kind: u32) -> bool
    ensures { result ≡ withdraws (side_of side) && not (kind == 1) }
{
    match side {
        Side::Entering => false,
        Side::Withdrawing => kind != TOTALS,
    }
}

// 21, 22, 23 or 24, in this order, or the head. Nothing is written yet: 24 is told by counting along the two paths.
pub(crate) fn check_state(half: usize, img: &[u8], booking: Booking) -> Result<Head, Refusal>
    requires image_sized { (2 ≤ half) × (half ≤ 12) × (length_ok half img.now ≡ true) }
    requires span { booking.start < booking.end }
    ensures status { status_of result ≡ first (book_state_rows half (side_of booking.side) booking.start booking.end img.now) }
    ensures accepted { IfOk result (λ h. h ≡ head half img.now) }
{
    if !sound(half, img) {
        return Err(Refusal::Unsound);
    }
    let h = read_head(page_at(half, img, 0));
    if kind_refuses(booking.side, h.kind) {
        return Err(Refusal::WithdrawalKind);
    }
    if h.changes == MOST_CHANGES {
        return Err(Refusal::ChangesFull);
    }
    if lacks_pages(
        half,
        img,
        h,
        booking.start,
        effect_end(booking.end, h.window),
    ) {
        return Err(Refusal::PagesLacking);
    }
    Ok(h)
}
