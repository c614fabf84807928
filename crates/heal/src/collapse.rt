// "An inner root with one entry combines its pair into its child's entries, is given back, and the child becomes root."
ghost use Rattle.rule.specs.Pairs.{combine};
ghost use Rattle.steps.specs.Heal.{collapse_root, collapse_if_single};
ghost use Rattle.store.specs.Encoding.{Encodes, Pre, Post};
ghost use Rattle.heal.specs.Healable.{Collapsible, CollapsibleIfSingle};

use rebalance::push::push_down;
use store::entries::{entry_count_in, entry_of};
use store::heads::head_of;
use store::root::set_root;
use store::supply::give_back;

// The root has one entry, whose page becomes root.
fn collapse_root(half: usize, img: &mut [u8], kind: u32)
    requires { Pre half img.old Collapsible }
    ensures { Post half img.old Collapsible (λ X. Encodes half img.new (collapse_root (combine kind) X)) }
{
    let h = head_of(half, img);
    let e = entry_of(half, img, h.root, 0);
    push_down(half, img, kind, e);
    give_back(half, img, h.root);
    set_root(half, img, h.height - 1, e.child);
}

pub(crate) fn collapse_if_single(half: usize, img: &mut [u8], kind: u32)
    requires { Pre half img.old CollapsibleIfSingle }
    ensures { Post half img.old CollapsibleIfSingle
        (λ X. Encodes half img.new (collapse_if_single (combine kind) X)) }
{
    let h = head_of(half, img);
    if h.height > 1 && entry_count_in(half, img, h.root) == 1 {
        collapse_root(half, img, kind);
    }
}
