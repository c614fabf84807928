// "else both join in the left page, the right is given back, the parent loses its entry"
ghost use Rattle.rule.specs.Pairs.{combine};
ghost use Rattle.steps.specs.Heal.{merge};
ghost use Rattle.store.specs.Encoding.{Encodes, PreLevel, PostLevel};
ghost use Rattle.rebalance.specs.Siblings.{Mergeable, siblings_joined};

use crate::SiblingsAt;
use crate::push::{empty_pair, push_siblings};
use crate::share::append_all;
use store::edits::remove_entry;
use store::supply::give_back;

// The two pages; the page above them stays as it is.
fn join_siblings(half: usize, img: &mut [u8], at: SiblingsAt)
    requires { PreLevel half img.old (λ v. Mergeable half v at.p at.l) }
    ensures { PostLevel half img.old (λ v. Mergeable half v at.p at.l)
        (λ v X. Encodes half img.new (siblings_joined at.kind v at.p at.l X)) }
{
    let s = push_siblings(half, img, at);
    append_all(half, img, s.left, s.right);
    give_back(half, img, s.right);
}

// The pages under the l-th entry of page p and the next become one.
pub(crate) fn merge(half: usize, img: &mut [u8], at: SiblingsAt)
    requires { PreLevel half img.old (λ v. Mergeable half v at.p at.l) }
    ensures { PostLevel half img.old (λ v. Mergeable half v at.p at.l)
        (λ v X. Encodes half img.new (merge (combine at.kind) v at.p at.l X)) }
{
    join_siblings(half, img, at);
    remove_entry(half, img, at.p, at.l + 1);
    empty_pair(half, img, at.p, at.l);
}
