// "Heal at t": down the path to t and back up, and then the root. Whether an edge joins there is told ahead of it, once.
ghost use Rattle.rule.specs.Pairs.{combine};
ghost use Rattle.steps.specs.Heal.{heal_page, heal};
ghost use Rattle.store.specs.Encoding.{Encodes, Pre, Post, PreLevel, PostLevel};
ghost use Rattle.heal.specs.Healable.{RebalanceableIfShort, rebalance_if_short, PageHealable, Healable};

use crate::HealAt;
use crate::carry::carry;
use crate::collapse::collapse_if_single;
use crate::edges::joins_edge;
use crate::leaf::heal_leaf;
use rebalance::rebalance::rebalance;
use rule::limits::END;
use store::entries::{entry_count_in, find_entry};
use store::heads::head_of;

// The page q under the i-th entry of page p was healed: if that left it short, it is rebalanced with its sibling.
fn rebalance_if_short(half: usize, img: &mut [u8], kind: u32, p: u32, i: usize, q: u32)
    requires { PreLevel half img.old (λ v. RebalanceableIfShort half v p i q) }
    ensures { PostLevel half img.old (λ v. RebalanceableIfShort half v p i q)
        (λ v X. Encodes half img.new (rebalance_if_short half kind v p i q X)) }
{
    if entry_count_in(half, img, q) < half {
        rebalance(half, img, kind, p, i);
    }
}

// Page p of that level, which ends at hi: the leaf entry goes, and on the way back up, at an edge, the new first start is carried, and each
// page that is left short is rebalanced. The search asks for hi, and what is written doesn't depend on it.
fn heal_page(half: usize, img: &mut [u8], by: HealAt, level: u32, p: u32, hi: u32)
    requires { Pre half img.old (PageHealable half by.kind by.edge by.t level p) }
    ensures { Post half img.old (PageHealable half by.kind by.edge by.t level p)
        (λ X. Encodes half img.new (heal_page half (combine by.kind) by.edge by.t level p X)) }
{
    if level == 0 {
        heal_leaf(half, img, by.edge, p, hi, by.t);
        return;
    }
    let found = find_entry(half, img, p, hi, by.t);
    let child = found.entry.child;
    heal_page(half, img, by, level - 1, child, found.end);
    carry(half, img, by.edge, p, found.index, by.t);
    rebalance_if_short(half, img, by.kind, p, found.index, child);
}

// The whole step.
pub fn heal(half: usize, img: &mut [u8], kind: u32, t: u32)
    requires { Pre half img.old (Healable half kind t) }
    ensures { Post half img.old (Healable half kind t)
        (λ X. Encodes half img.new (heal half (combine kind) t X)) }
{
    let h = head_of(half, img);
    let level = h.height - 1;
    let edge = joins_edge(half, img, kind, level, h.root, t);
    let by = HealAt { kind, t, edge };
    heal_page(half, img, by, level, h.root, END);
    collapse_if_single(half, img, kind);
}
