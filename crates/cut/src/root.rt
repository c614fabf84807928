// "A split root gets a new root, two entries with pair (0, 0)."
ghost use Rattle.std.specs.Prelude.{[], ◌∷◌};
ghost use Rattle.rule.specs.Pairs.{none};
ghost use Rattle.page.specs.Entries.{entry};
ghost use Rattle.steps.specs.Cut.{grow_root};
ghost use Rattle.edit.specs.Contents.{HasEntries};
ghost use Rattle.store.specs.Encoding.{Encodes, Pre, Post};
ghost use Rattle.cut.specs.Cuttable.{RootGrowable};

use crate::SplitOff;
use page::Page;
use page::layout::SLOTS;
use store::heads::head_of;
use store::pages::save;
use store::root::set_root;
use store::supply::take;

// The new root's entries: from 0 on the page that was root, and what was split off it.
fn new_root(level: u32, root: u32, right: SplitOff) -> Page
    ensures { HasEntries level (entry 0 none root ∷ entry right.start none right.page ∷ []) result }
{
    let mut starts = [0u32; SLOTS];
    let mut children = [0u32; SLOTS];
    starts[1] = right.start;
    children[0] = root;
    children[1] = right.page;
    Page {
        level,
        len: 2,
        starts,
        sums: [0i64; SLOTS],
        counts: [0i32; SLOTS],
        children,
    }
}

// The new root is the page that is taken last, a level above.
pub(crate) fn grow_root(half: usize, img: &mut [u8], root: u32, right: SplitOff)
    requires { Pre half img.old RootGrowable }
    ensures { Post half img.old RootGrowable
        (λ X. Encodes half img.new (grow_root (entry 0 none root ∷ entry right.start none right.page ∷ []) X)) }
{
    let h = head_of(half, img);
    let p = take(half, img);
    set_root(half, img, h.height + 1, p);
    save(half, img, p, new_root(h.height, root, right));
}
