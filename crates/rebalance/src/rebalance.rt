// "A page other than the root left with" K/2 − 1 "turns to its left neighbour under the same parent, else the right."
ghost use Rattle.std.specs.Prelude.{◌≡◌, cond, eqb, ◌-◌, ◌≤◌};
ghost use Rattle.rule.specs.Pairs.{combine};
ghost use Rattle.steps.specs.Heal.{sibling, rebalance};
ghost use Rattle.store.specs.Encoding.{Encodes, PreLevel, PostLevel};
ghost use Rattle.rebalance.specs.Siblings.{Rebalanceable};

use crate::SiblingsAt;
use crate::merge::merge;
use crate::redistribute::redistribute;
use store::entries::{entry_count_in, entry_of};

// The sibling's index, for the page under the i-th entry.
fn sibling(i: usize) -> usize
    ensures { result ≡ sibling i }
{
    if i == 0 { 1 } else { i - 1 }
}

// How many entries the left one has then, if the sibling has n and gives one.
fn left_share(half: usize, i: usize, n: usize) -> usize
    requires { 1 ≤ n }
    ensures { result ≡ cond (eqb i 0) half (n - 1) }
{
    if i == 0 { half } else { n - 1 }
}

// The page under the i-th entry of page p is rebalanced with its sibling.
pub fn rebalance(half: usize, img: &mut [u8], kind: u32, p: u32, i: usize)
    requires { PreLevel half img.old (λ v. Rebalanceable half v p i) }
    ensures { PostLevel half img.old (λ v. Rebalanceable half v p i)
        (λ v X. Encodes half img.new (rebalance half (combine kind) v p i X)) }
{
    let e = entry_of(half, img, p, sibling(i));
    let n = entry_count_in(half, img, e.child);
    // The left one of the two stands before the i-th, or is the first.
    let l = i.saturating_sub(1);
    let at = SiblingsAt { kind, p, l };
    if n > half {
        redistribute(half, img, at, left_share(half, i, n));
    } else {
        merge(half, img, at);
    }
}
