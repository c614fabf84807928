// The walk: a page by its entries, and an inner entry by its page below. One recursion serves both passes, since a walk that
// only counts is the same but for the output. The bottom of the tree has a loop of its own, outside the recursion.
ghost use Rattle.std.specs.Prelude.{Some, ◌≡◌, ◌≤◌};
ghost use Rattle.listing.specs.Cursors.{ValidCursor, ValidEntry};
ghost use Rattle.listing.specs.Walks.{page_walk, entry_walk, page_check, Room, Does};

use crate::bottom::walk_leaves;
use crate::entries::cursor_below;
use crate::met::entries_met;
use crate::pages::check_page;
use crate::pass::Pass;
use crate::{Cursor, SpanQuery};
use runs::Run;

// From a fit page of n entries on: those that overlap the span in turn, up to the first unfit page below. A page is fit in no two
// contexts, so none is found fit twice.
#[cycle(walk_entry_walk_page)]
pub(crate) fn walk_page<P: Pass>(
    img: &[u8],
    out: &mut [u8],
    q: SpanQuery,
    on: Cursor,
    n: usize,
    run: Run,
) -> Option<Run>
    requires valid_cursor { ValidCursor img.now q on }
    requires fit_page { Some n ≡ page_check img.now q on }
    requires room { Room q.known P.writes run (page_walk img.now q on) out.old }
    ensures { Does P.writes run (page_walk img.now q on) out.old result out.new }
{
    if on.at.level < 2 {
        return walk_leaves::<P>(img, out, q, on, n, run);
    }
    let mut last = run;
    for i in entries_met(img, q, on, n) {
        last = walk_entry::<P>(img, out, q, on, i, last)?;
    }
    Some(last)
}

// One entry of a fit inner page: the page below is checked before the walk goes on there.
#[cycle(walk_entry_walk_page)]
fn walk_entry<P: Pass>(
    img: &[u8],
    out: &mut [u8],
    q: SpanQuery,
    on: Cursor,
    i: usize,
    run: Run,
) -> Option<Run>
    requires valid_cursor { ValidCursor img.now q on }
    requires valid_entry { ValidEntry img.now q on i }
    requires inner { 1 ≤ on.at.level }
    requires room { Room q.known P.writes run (entry_walk img.now q on i) out.old }
    ensures { Does P.writes run (entry_walk img.now q on i) out.old result out.new }
{
    let below = cursor_below(img, q, on, i);
    let n = check_page(img, q, below)?;
    walk_page::<P>(img, out, q, below, n, run)
}
