// The leaves that a walk meets: no page below can be unfit, so the open run goes from entry to entry by value.
ghost use Rattle.std.specs.Prelude.{Some, ◌≡◌};
ghost use Rattle.listing.specs.Cursors.{ValidCursor, ValidEntry};
ghost use Rattle.listing.specs.Walks.{page_walk, entry_walk, page_check, Room, Does};

use crate::entries::{run_start, total_at};
use crate::met::entries_met;
use crate::pass::Pass;
use crate::{Cursor, SpanQuery};
use runs::{ListedRun, Run};

// The i-th entry of a fit leaf is one run more.
fn leaf_entry<P: Pass>(
    img: &[u8],
    out: &mut [u8],
    q: SpanQuery,
    on: Cursor,
    i: usize,
    run: Run,
) -> Run
    requires valid_cursor { ValidCursor img.now q on }
    requires valid_entry { ValidEntry img.now q on i }
    requires leaf { on.at.level ≡ 0 }
    requires room { Room q.known P.writes run (entry_walk img.now q on i) out.old }
    ensures { Does P.writes run (entry_walk img.now q on i) out.old (Some result) out.new }
{
    let x = ListedRun {
        start: run_start(img, q, on, i),
        pair: total_at(img, q, on, i),
    };
    P::meet(out, run, x)
}

// A fit leaf of n entries: those that overlap the span in turn.
pub(crate) fn leaf_page<P: Pass>(
    img: &[u8],
    out: &mut [u8],
    q: SpanQuery,
    on: Cursor,
    n: usize,
    run: Run,
) -> Run
    requires valid_cursor { ValidCursor img.now q on }
    requires fit_page { Some n ≡ page_check img.now q on }
    requires leaf { on.at.level ≡ 0 }
    requires room { Room q.known P.writes run (page_walk img.now q on) out.old }
    ensures { Does P.writes run (page_walk img.now q on) out.old (Some result) out.new }
{
    let mut last = run;
    for i in entries_met(img, q, on, n) {
        last = leaf_entry::<P>(img, out, q, on, i, last);
    }
    last
}
