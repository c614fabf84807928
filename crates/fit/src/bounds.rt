// "an inner entry's child lies in 1 to n−1, a leaf's is 0; for kind 1 the absolute sums of an entry and of those above it on its way
// add to at most 1,000,000 × changes, absolute counts to at most changes; kinds 2 and 3 have (0, 0) or a value with 1"
ghost use Rattle.std.specs.Prelude.{◌≡◌, if◌then◌else◌, nat_eq};
ghost use Rattle.fit.specs.Limits.{LimitsOf};

use super::Limits;
use page::{Head, PageContext};
use rule::limits::{MOST_VALUE, TOTALS};

// The first child that an entry of a level may have, and the number behind the last: a leaf's is 0.
fn children(pages: u32, level: u32) -> (u64, u64)
    ensures first { result.0 ≡ (if nat_eq level 0 then 0 else 1) }
    ensures past { result.1 ≡ (if nat_eq level 0 then 1 else pages) }
{
    if level == 0 {
        (0, 1)
    } else {
        (1, u64::from(pages))
    }
}

// The limits of the entries of a page in a context: no more than is left by the entries above it.
pub(crate) fn limits(h: Head, at: PageContext) -> Limits
    ensures { LimitsOf h at result }
{
    let (first, past) = children(h.pages, at.level);
    if h.kind != TOTALS {
        return Limits {
            sum: 0,
            each: MOST_VALUE,
            below: 0,
            span: 1,
            first,
            past,
        };
    }
    let changes = u64::from(h.changes);
    let most = MOST_VALUE * changes;
    if (at.sums <= most) & (at.counts <= changes) {
        let below = changes - at.counts;
        return Limits {
            sum: most - at.sums,
            each: 0,
            below,
            span: 2 * below,
            first,
            past,
        };
    }
    // The entries above have gone past a bound, so that no entry fits: no child lies below 0.
    Limits {
        sum: 0,
        each: 0,
        below: 0,
        span: 0,
        first,
        past: 0,
    }
}
