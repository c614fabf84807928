// "a neighbour gives from K/2 + 1 up": "its nearest entry, and the right page's parent start follows."
ghost use Rattle.rule.specs.Pairs.{combine};
ghost use Rattle.steps.specs.Heal.{redistribute};
ghost use Rattle.store.specs.Encoding.{Encodes, PreLevel, PostLevel};
ghost use Rattle.rebalance.specs.Siblings.{Redistributable, siblings_shared};

use crate::SiblingsAt;
use crate::push::{emptied, empty_pair, push_siblings};
use crate::share::share;
use store::edits::set_entry;
use store::entries::entry_of;

// The two pages; the page above them stays as it is.
fn share_siblings(half: usize, img: &mut [u8], at: SiblingsAt, k: usize)
    requires { PreLevel half img.old (λ v. Redistributable half v at.p at.l k) }
    ensures { PostLevel half img.old (λ v. Redistributable half v at.p at.l k)
        (λ v X. Encodes half img.new (siblings_shared at.kind v at.p at.l k X)) }
{
    let s = push_siblings(half, img, at);
    share(half, img, s.left, s.right, k);
}

// Of all entries of the pages under the l-th entry of page p and the next, the left page has k.
pub(crate) fn redistribute(half: usize, img: &mut [u8], at: SiblingsAt, k: usize)
    requires { PreLevel half img.old (λ v. Redistributable half v at.p at.l k) }
    ensures { PostLevel half img.old (λ v. Redistributable half v at.p at.l k)
        (λ v X. Encodes half img.new (redistribute (combine at.kind) v at.p at.l k X)) }
{
    share_siblings(half, img, at, k);
    let b = entry_of(half, img, at.p, at.l + 1);
    let first = entry_of(half, img, b.child, 0);
    set_entry(half, img, at.p, at.l + 1, emptied(b, first.start));
    empty_pair(half, img, at.p, at.l);
}
