// The pairs and children of a page's entries: each within the limits of the page.
ghost use Rattle.std.specs.Prelude.{◌≡◌, ◌/◌, ◌%◌, ◌^◌, true, ◌&&◌};
ghost use Rattle.rule.specs.Bounds.{top_clear};
ghost use Rattle.page.specs.Fit.{children_ok, pairs_ok};
ghost use Rattle.fit.specs.Contexts.{Compared};
ghost use Rattle.fit.specs.Limits.{Small, Leaf, allows, Tells};

use super::Limits;
use super::bounds::limits;
use page::at::{count_and_child_at, sum_bits_at};
use page::{Head, PageContext};
use rule::top_bits::{TOP_BIT, at_most, within};

// The count is the lower half of a word, the child the upper.
const COUNT_SPAN: u64 = 4294967296;

// Top bit clear where an entry's numbers are within the limits: the bits of its sum, and those of its count with its child above them.
// One wrapped sum or difference for each bound instead of absolute values and comparisons, and no case by kind or level: two entries
// are tested at once (15% of an instant or of an audit of full pages).
fn overstep(l: Limits, sum: u64, mark: u64) -> u64
    requires { Small l }
    ensures { top_clear result ≡ allows l sum (mark % 2 ^ 32) (mark / 2 ^ 32) }
{
    let count = mark % COUNT_SPAN;
    let child = mark / COUNT_SPAN;
    (at_most(l.first, child) | at_most(child + 1, l.past))
        | (within(sum, l.sum + l.each * count) | at_most((count + l.below) % COUNT_SPAN, l.span))
}

// Whether n entries are within the limits: no exit in the loop, and one comparison behind it.
fn all_within(half: usize, s: &[u8], n: usize, l: Limits) -> bool
    requires compared { Compared half s.now n }
    requires small { Small l }
    ensures { Tells half l s.now n result }
{
    let mut over = 0;
    for i in 0..n {
        over |= overstep(l, sum_bits_at(half, s, i), count_and_child_at(half, s, i));
    }
    over < TOP_BIT
}

// Whether n entries of a leaf are clearly within the limits: a quick test, which most leaves pass. An `or` is at least each of its
// numbers, so that it is compared in their place: for an entry two `or` and an addition (30% of an audit of full pages). It fails where a
// count is below zero or a sum comes near to the limit, and tells nothing then.
fn clearly_within(half: usize, s: &[u8], n: usize, l: Limits) -> bool
    requires compared { Compared half s.now n }
    requires small { Small l × Leaf l }
    ensures { result ≡ true → Tells half l s.now n true }
{
    let mut sums = 0;
    let mut marks = 0;
    for i in 0..n {
        sums |= sum_bits_at(half, s, i).wrapping_add(l.sum);
        marks |= count_and_child_at(half, s, i);
    }
    (sums <= 2 * l.sum) & (marks <= l.below)
}

// Whether the pairs and children of a page of n entries may stand there. The quick test is for leaves of totals.
pub(crate) fn entries_ok(half: usize, s: &[u8], n: usize, h: Head, at: PageContext) -> bool
    requires { Compared half s.now n }
    ensures { result ≡ children_ok half h.pages at s.now && pairs_ok half h at s.now }
{
    let l = limits(h, at);
    if (l.first == 0) & (l.past == 1) & (l.each == 0) && clearly_within(half, s, n, l) {
        return true;
    }
    all_within(half, s, n, l)
}
