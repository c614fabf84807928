// The bottom of the tree: the leaves below one page, in a loop outside the recursion. No call is made for a leaf, so that the open run
// is handed on in registers: that takes a seventh off the time of a listing. A root that is a leaf is its own one leaf, so that leaves
// are walked in one place.
ghost use Rattle.std.specs.Prelude.{Some, ◌≡◌, ◌≤◌, ◌<◌};
ghost use Rattle.listing.specs.Cursors.{ValidCursor, ValidEntry};
ghost use Rattle.listing.specs.Met.{LeafRange};
ghost use Rattle.listing.specs.Walks.{page_walk, page_check, leaf_cursor, Room, Does};

use crate::entries::cursor_below;
use crate::leaves::leaf_page;
use crate::met::entries_met;
use crate::pages::check_page;
use crate::pass::Pass;
use crate::{Cursor, SpanQuery};
use runs::Run;
use std::ops::Range;

// Which leaves of a page the span overlaps.
fn leaf_range(img: &[u8], q: SpanQuery, on: Cursor, n: usize) -> Range<usize>
    requires valid_cursor { ValidCursor img.now q on }
    requires fit_page { Some n ≡ page_check img.now q on }
    ensures { LeafRange img.now q on n result }
{
    if on.at.level == 0 {
        return 0..1;
    }
    entries_met(img, q, on, n)
}

// The leaf below the i-th entry.
#[tactic(auto, unfolding(crate::specs::Walks::leaf_cursor))]
fn leaf_cursor(img: &[u8], q: SpanQuery, on: Cursor, i: usize) -> Cursor
    requires valid_cursor { ValidCursor img.now q on }
    requires valid_entry { 1 ≤ on.at.level → ValidEntry img.now q on i }
    ensures { result ≡ leaf_cursor img.now q on i }
{
    if on.at.level == 0 {
        return on;
    }
    cursor_below(img, q, on, i)
}

// From a fit page of n entries above leaves on, or from a fit leaf.
pub(crate) fn walk_leaves<P: Pass>(
    img: &[u8],
    out: &mut [u8],
    q: SpanQuery,
    on: Cursor,
    n: usize,
    run: Run,
) -> Option<Run>
    requires valid_cursor { ValidCursor img.now q on }
    requires fit_page { Some n ≡ page_check img.now q on }
    requires low { on.at.level < 2 }
    requires room { Room q.known P.writes run (page_walk img.now q on) out.old }
    ensures { Does P.writes run (page_walk img.now q on) out.old result out.new }
{
    let mut last = run;
    for i in leaf_range(img, q, on, n) {
        let leaf = leaf_cursor(img, q, on, i);
        let m = check_page(img, q, leaf)?;
        last = leaf_page::<P>(img, out, q, leaf, m, last);
    }
    Some(last)
}
