// The entries of a page that a walk meets. The starts of a fit page rise, so those that overlap the span stand in a row: a walk
// looks for the row's two ends, and tests no entry between them. That takes a sixth off the time of a listing.
ghost use Rattle.std.specs.Prelude.{Some, ◌≡◌, ◌≤◌, length};
ghost use Rattle.page.specs.Layout.{start_offset, entry_count};
ghost use Rattle.listing.specs.Cursors.{ValidCursor};
ghost use Rattle.listing.specs.Met.{FirstMet, PastMet, Met};
ghost use Rattle.listing.specs.Walks.{page_check};

use crate::{Cursor, SpanQuery};
use access::pages::page_at;
use fit::contexts::end_at;
use page::at::start_at;
use std::ops::Range;

// The index of the first of n entries that ends behind a: in most pages of a listing the first of all.
fn first_met(s: &[u8], n: usize, hi: u32, a: u32) -> usize
    requires { (n ≡ entry_count s.now) × (start_offset n ≤ length s.now) }
    ensures { FirstMet s.now n hi a result }
{
    for i in 0..n {
        if a < end_at(s, hi, i) {
            return i;
        }
    }
    n
}

// The index behind the last of n entries that starts before b: in most pages of a listing the last of all.
fn past_met(s: &[u8], n: usize, b: u32) -> usize
    requires { start_offset n ≤ length s.now }
    ensures { PastMet s.now n b result }
{
    for i in (0..n).rev() {
        if start_at(s, i) < b {
            return i + 1;
        }
    }
    0
}

// The entries of a fit page of n entries that overlap the span.
pub(crate) fn entries_met(img: &[u8], q: SpanQuery, on: Cursor, n: usize) -> Range<usize>
    requires valid_cursor { ValidCursor img.now q on }
    requires fit_page { Some n ≡ page_check img.now q on }
    ensures { Met img.now q on n result }
{
    let s = page_at(q.half, img, on.page);
    first_met(s, n, on.at.hi, q.a)..past_met(s, n, q.b)
}
