// The entries of a leaf: no two neighbours have equal pairs.
ghost use Rattle.std.specs.Prelude.{◌≡◌, true, ◌+◌, ◌-◌, ◌≤◌, ◌<◌, length};
ghost use Rattle.fields.specs.Bytes.{every};
ghost use Rattle.page.specs.Layout.{capacity, page_size, entry_count};
ghost use Rattle.fit.specs.Contexts.{Compared};
ghost use Rattle.neighbours.specs.Edges.{next_differs, leaf_edges};

use super::Edges;
use page::at::{entry_count, pair_at, sum_bits_at};
use page::layout::MOST_HALF;

// Whether the sums of k entries from the a-th on differ each from the next one's: then their pairs do. Counted from 0, so that the compiler
// knows how often where it knows k.
fn sums_apart(half: usize, s: &[u8], a: usize, k: usize) -> bool
    requires { (length s.now ≡ page_size half) × (a + k < capacity half) }
    ensures { result ≡ true → every k (λ i. next_differs half s.now (a + i)) ≡ true }
{
    for i in 0..k {
        if sum_bits_at(half, s, a + i) == sum_bits_at(half, s, a + i + 1) {
            return false;
        }
    }
    true
}

// The same of all n entries, from half to twice half. Two rows of half, the first entries and the last, have all of them, and where n is
// twice half the rows meet in the middle. In every leaf these rows are of one length, so that no turn of a loop is foretold wrong.
fn rows_apart(half: usize, s: &[u8], n: usize) -> bool
    requires { (2 ≤ half) × (half ≤ 12) × (half ≤ n) × Compared half s.now n }
    ensures { result ≡ true → every (n - 1) (λ i. next_differs half s.now i) ≡ true }
{
    sums_apart(half, s, 0, half - 1)
        && sums_apart(half, s, n / 2 - 1, 1)
        && sums_apart(half, s, n - half, half - 1)
}

// Whether n entries clearly differ each from the next: a quick test, which most leaves pass, but for a root with few entries. For the
// greatest pages the compiler knows how long a row is. It fails where two sums are equal, and tells nothing then.
fn clearly_apart(half: usize, s: &[u8], n: usize) -> bool
    requires { (2 ≤ half) × (half ≤ 12) × Compared half s.now n }
    ensures { result ≡ true → every (n - 1) (λ i. next_differs half s.now i) ≡ true }
{
    if n < half {
        return false;
    }
    if half == MOST_HALF {
        return rows_apart(MOST_HALF, s, n);
    }
    rows_apart(half, s, n)
}

// Whether n entries differ each from the next.
fn all_apart(half: usize, s: &[u8], n: usize) -> bool
    requires { Compared half s.now n }
    ensures { result ≡ every (n - 1) (λ i. next_differs half s.now i) }
{
    let mut apart = true;
    for i in 0..n - 1 {
        apart &= pair_at(half, s, i) != pair_at(half, s, i + 1);
    }
    apart
}

// The same, by the quick test first: a third off the time of the whole check.
fn leaf_apart(half: usize, s: &[u8], n: usize) -> bool
    requires { (2 ≤ half) × (half ≤ 12) × Compared half s.now n }
    ensures { result ≡ every (n - 1) (λ i. next_differs half s.now i) }
{
    clearly_apart(half, s, n) || all_apart(half, s, n)
}

// What is found of a leaf.
pub(crate) fn leaf_edges(half: usize, s: &[u8]) -> Edges
    requires { (2 ≤ half) × (half ≤ 12) × Compared half s.now (entry_count s.now) }
    ensures { result ≡ leaf_edges half s.now }
{
    let n = entry_count(s) as usize;
    Edges {
        apart: leaf_apart(half, s, n),
        first: pair_at(half, s, 0),
        last: pair_at(half, s, n - 1),
    }
}
