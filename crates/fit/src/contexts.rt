// Places in the tree: the root's, and the one under an entry of a page.
ghost use Rattle.std.specs.Prelude.{◌≡◌, ◌<◌, ◌≤◌, length};
ghost use Rattle.page.specs.Fit.{root_context, end_at, context_under, context_below};
ghost use Rattle.page.specs.Layout.{capacity, start_offset, page_size, entry_count};
ghost use Rattle.fit.specs.Contexts.{Bounded};

use page::at::{entry_count, pair_at, start_at};
use page::{Head, PageContext};
use rule::Pair;
use rule::limits::END;

// The root's context: "(root: height − 1)", "(root: 0)", "(root: END)".
pub fn root_context(h: Head) -> PageContext
    requires { 1 ≤ h.height }
    ensures { result ≡ root_context h }
{
    PageContext {
        level: h.height - 1,
        is_root: true,
        lo: 0,
        hi: END,
        sums: 0,
        counts: 0,
    }
}

// Where the i-th entry ends: at the next one's start, the last at the page's own end.
pub fn end_at(s: &[u8], hi: u32, i: usize) -> u32
    requires { (start_offset (entry_count s.now) ≤ length s.now) × (i < length s.now) }
    ensures { result ≡ end_at s.now hi i }
{
    if i + 1 < entry_count(s) as usize {
        start_at(s, i + 1)
    } else {
        hi
    }
}

// The context of the page under an entry of an inner page: the entry's absolute sum and count are added up along the path.
pub fn context_under(at: PageContext, start: u32, end: u32, pair: Pair) -> PageContext
    requires { (1 ≤ at.level) × Bounded at }
    ensures { result ≡ context_under at start end pair }
{
    PageContext {
        level: at.level - 1,
        is_root: false,
        lo: start,
        hi: end,
        sums: at.sums + pair.sum.unsigned_abs(),
        counts: at.counts + i64::from(pair.count).unsigned_abs(),
    }
}

// The context of the page under the i-th entry.
pub fn context_below(half: usize, s: &[u8], at: PageContext, i: usize) -> PageContext
    requires size { length s.now ≡ page_size half }
    requires within { (i < capacity half) × (entry_count s.now ≤ capacity half) }
    requires inner { (1 ≤ at.level) × Bounded at }
    ensures { result ≡ context_below half s.now at i }
{
    context_under(at, start_at(s, i), end_at(s, at.hi, i), pair_at(half, s, i))
}
