// An entry that a walk meets.
ghost use Rattle.std.specs.Prelude.{◌≡◌, ◌≤◌, max};
ghost use Rattle.page.specs.Layout.{start_at};
ghost use Rattle.listing.specs.Cursors.{ValidCursor, ValidEntry};
ghost use Rattle.listing.specs.Walks.{bytes_at, cursor_below};

use crate::{Cursor, SpanQuery};
use access::pages::page_at;
use fit::contexts::context_below;
use page::at::{child_at, pair_at, start_at};
use rule::Pair;
use rule::combine::combine;

// Where the run of a leaf's i-th entry starts: the first run starts at a.
pub(crate) fn run_start(img: &[u8], q: SpanQuery, on: Cursor, i: usize) -> u32
    requires valid_cursor { ValidCursor img.now q on }
    requires valid_entry { ValidEntry img.now q on i }
    ensures { result ≡ max q.a (start_at (bytes_at q.half img.now on) i) }
{
    q.a.max(start_at(page_at(q.half, img, on.page), i))
}

// The i-th entry's pair, combined with those above it.
pub(crate) fn total_at(img: &[u8], q: SpanQuery, on: Cursor, i: usize) -> Pair
    requires valid_cursor { ValidCursor img.now q on }
    requires valid_entry { ValidEntry img.now q on i }
    ensures { result ≡ (cursor_below q (bytes_at q.half img.now on) on i).above }
{
    combine(
        q.head.kind,
        on.above,
        pair_at(q.half, page_at(q.half, img, on.page), i),
    )
}

// The page below the i-th entry of an inner page.
pub(crate) fn cursor_below(img: &[u8], q: SpanQuery, on: Cursor, i: usize) -> Cursor
    requires valid_cursor { ValidCursor img.now q on }
    requires valid_entry { ValidEntry img.now q on i }
    requires inner { 1 ≤ on.at.level }
    ensures { result ≡ cursor_below q (bytes_at q.half img.now on) on i }
{
    let s = page_at(q.half, img, on.page);
    Cursor {
        at: context_below(q.half, s, on.at, i),
        page: child_at(q.half, s, i),
        above: total_at(img, q, on, i),
    }
}
