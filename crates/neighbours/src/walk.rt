// The walk from a page down. Each page is met once: what it shows at its first and last entry is handed up.
ghost use Rattle.std.specs.Prelude.{◌≡◌, ◌-◌};
ghost use Rattle.neighbours.specs.Edges.{page_edges, entry_edges};
ghost use Rattle.neighbours.specs.Standing.{Standing, Inner};

use super::Edges;
use super::leaves::leaf_edges;
use super::parts::{joined, under_pair};
use access::pages::page_at;
use page::at::{child_at, entry_count, pair_at};

// The leaf below the i-th entry of a page of level 1.
fn leaf_below(half: usize, img: &[u8], p: u32, i: usize) -> Edges
    requires { Inner half img.now 1 p i }
    ensures { result ≡ entry_edges half img.now 0 p i }
{
    let s = page_at(half, img, p);
    under_pair(
        pair_at(half, s, i),
        leaf_edges(half, page_at(half, img, child_at(half, s, i))),
    )
}

// The leaves below a page of level 1: most pages are leaves, so they have a loop of their own, outside the recursion.
fn leaves_edges(half: usize, img: &[u8], p: u32) -> Edges
    requires { Standing half img.now 1 p }
    ensures { result ≡ page_edges half img.now 1 p }
{
    let n = entry_count(page_at(half, img, p)) as usize;
    let mut found = leaf_below(half, img, p, 0);
    for i in 1..n {
        found = joined(found, leaf_below(half, img, p, i));
    }
    found
}

// The same from a page of any level. The loop stands twice: as one function of a closure it would be no plainer, since this closure would
// stand in the cycle of calls and had to have entry_edges's clauses once more, longer than the loop.
#[cycle(entry_edges_page_edges)]
pub(crate) fn page_edges(half: usize, img: &[u8], level: u32, p: u32) -> Edges
    requires { Standing half img.now level p }
    ensures { result ≡ page_edges half img.now level p }
{
    if level == 0 {
        return leaf_edges(half, page_at(half, img, p));
    }
    if level == 1 {
        return leaves_edges(half, img, p);
    }
    let n = entry_count(page_at(half, img, p)) as usize;
    let mut found = entry_edges(half, img, level, p, 0);
    for i in 1..n {
        found = joined(found, entry_edges(half, img, level, p, i));
    }
    found
}

// The same from the page below the i-th entry of an inner page: the level falls.
#[cycle(entry_edges_page_edges)]
fn entry_edges(half: usize, img: &[u8], level: u32, p: u32, i: usize) -> Edges
    requires { Inner half img.now level p i }
    ensures { result ≡ entry_edges half img.now (level - 1) p i }
{
    let s = page_at(half, img, p);
    under_pair(
        pair_at(half, s, i),
        page_edges(half, img, level - 1, child_at(half, s, i)),
    )
}
