// Cut at an instant, from the root.
ghost use Rattle.steps.specs.Cut.{cut};
ghost use Rattle.store.specs.Encoding.{Encodes, Pre, Post};
ghost use Rattle.cut.specs.Cuttable.{Cuttable};

use crate::entries::cut_entry;
use crate::root::grow_root;
use rule::limits::END;
use store::heads::head_of;
use store::root::root_entry;

// "nothing if t is END or starts a leaf entry".
pub fn cut(half: usize, img: &mut [u8], t: u32)
    requires { Pre half img.old (Cuttable half t) }
    ensures { Post half img.old (Cuttable half t) (λ X. Encodes half img.new (cut half t X)) }
{
    if t == END {
        return;
    }
    let h = head_of(half, img);
    if let Some(right) = cut_entry(half, img, h.height, root_entry(h), END, t) {
        grow_root(half, img, h.root, right);
    }
}
