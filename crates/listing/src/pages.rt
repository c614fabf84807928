// The pages that a walk meets.
ghost use Rattle.std.specs.Prelude.{◌≡◌, true, ◌≤◌, length};
ghost use Rattle.page.specs.Layout.{page_size};
ghost use Rattle.page.specs.Fit.{page_fit};
ghost use Rattle.fit.specs.Contexts.{Bounded};
ghost use Rattle.listing.specs.Cursors.{ValidCursor, KnownFit};
ghost use Rattle.listing.specs.Walks.{page_check};

use crate::{Cursor, SpanQuery};
use access::pages::page_at;
use fit::tree_page::page_fit;
use page::at::entry_count;
use page::{Head, PageContext};

// Whether a page is fit, if it isn't known to be.
fn found_fit(half: usize, s: &[u8], known: bool, h: Head, at: PageContext) -> bool
    requires whole_page { (1 ≤ half) × (length s.now ≡ page_size half) }
    requires bounded { Bounded at }
    requires known_fit { known ≡ true → page_fit half h at s.now ≡ true }
    ensures { result ≡ page_fit half h at s.now }
{
    if known {
        return true;
    }
    page_fit(half, s, h, at)
}

// A page is checked before anything in it is used, unless it is known to be fit. The walk that writes follows one that has found every page
// fit, and checks none again. Nor does a rebuild's walk that counts: its audit has found every page fit, and a second check was a sixth of
// its time.
pub(crate) fn check_page(img: &[u8], q: SpanQuery, on: Cursor) -> Option<usize>
    requires valid_cursor { ValidCursor img.now q on }
    requires known_fit { KnownFit img.now q on }
    ensures { result ≡ page_check img.now q on }
{
    let s = page_at(q.half, img, on.page);
    if found_fit(q.half, s, q.known, q.head, on.at) {
        return Some(entry_count(s) as usize);
    }
    None
}
