// "For kind 1, heal at t shall also remove an entry that is first in its page when the totals on both sides are equal": one walk to where
// the ways to t and to t − 1 part, and two from there on. What stands above is on both ways, and is not compared.
ghost use Rattle.std.specs.Prelude.{◌≡◌, true, ◌&&◌, eqb};
ghost use Rattle.rule.specs.Pairs.{combine};
ghost use Rattle.store.specs.Encoding.{Pre, Post};
ghost use Rattle.heal.specs.Edges.{UnderTotalled, total_under, SidesReadable, sides_agree, EdgeReadable, edge_met};

use page::Entry;
use rule::Pair;
use rule::combine::combine;
use rule::limits::{END, TOTALS};
use store::Found;
use store::entries::{entry_of, find_entry};

// The total at t from an entry that ends at hi, whose page is of that level.
fn total_under(half: usize, img: &[u8], kind: u32, level: u32, e: Entry, hi: u32, t: u32) -> Pair
    requires { Pre half img.now (UnderTotalled (combine kind) t level e) }
    ensures { Post half img.now (UnderTotalled (combine kind) t level e)
        (λ X. result ≡ total_under (combine kind) t level e X) }
{
    let found = find_entry(half, img, e.child, hi, t);
    let below = if level == 0 {
        found.entry.pair
    } else {
        total_under(half, img, kind, level - 1, found.entry, found.end, t)
    };
    combine(kind, e.pair, below)
}

// Whether an entry found in page p, which starts at t, has one before it with the same total at t − 1; below is the level of their pages.
fn sides_agree(half: usize, img: &[u8], kind: u32, below: u32, p: u32, found: Found, t: u32) -> bool
    requires { Pre half img.now (SidesReadable (combine kind) t below p found.index found.entry) }
    ensures { Post half img.now (SidesReadable (combine kind) t below p found.index found.entry)
        (λ X. result ≡ sides_agree (combine kind) t below p found.index X) }
{
    let i = found.index;
    if i == 0 {
        return false;
    }
    let right = total_under(half, img, kind, below, found.entry, found.end, t);
    let before = entry_of(half, img, p, i - 1);
    let left = total_under(half, img, kind, below, before, t, t - 1);
    right == left
}

// Whether the ways part from page p of that level down, which ends at hi, and the totals from there on are the same: they part where an
// entry of an inner page starts at t. Down to a leaf they didn't, and its own entries tell what goes.
fn edge_met(half: usize, img: &[u8], kind: u32, level: u32, p: u32, hi: u32, t: u32) -> bool
    requires { Pre half img.now (EdgeReadable (combine kind) t level p) }
    ensures { Post half img.now (EdgeReadable (combine kind) t level p)
        (λ X. result ≡ edge_met (combine kind) t level p X) }
{
    if level == 0 {
        return false;
    }
    let found = find_entry(half, img, p, hi, t);
    if found.entry.start == t {
        sides_agree(half, img, kind, level - 1, p, found, t)
    } else {
        edge_met(half, img, kind, level - 1, found.entry.child, found.end, t)
    }
}

// "For kind 1": another kind's edges stay. From the root, whose level is given.
pub(crate) fn joins_edge(half: usize, img: &[u8], kind: u32, level: u32, root: u32, t: u32) -> bool
    requires { Pre half img.now (λ X. eqb kind 1 ≡ true → EdgeReadable (combine kind) t level root X) }
    ensures { Post half img.now (λ X. eqb kind 1 ≡ true → EdgeReadable (combine kind) t level root X)
        (λ X. result ≡ (eqb kind 1 && edge_met (combine kind) t level root X)) }
{
    kind == TOTALS && edge_met(half, img, kind, level, root, END, t)
}
