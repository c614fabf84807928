// Edits of a tree page in place, on its bytes: a change neither decodes nor writes back what it does not change.
ghost use Rattle.std.specs.Prelude.{[], ◌∷◌};
ghost use Rattle.lists.specs.Lists.{splice};
ghost use Rattle.page.specs.Entries.{inserted};
ghost use Rattle.image.specs.Images.{tree};
ghost use Rattle.steps.specs.Supply.{entries, put};
ghost use Rattle.store.specs.Encoding.{Encodes, PreLevel, PostLevel};
ghost use Rattle.store.specs.Preconditions.{HasEntry, HasRoom};

use page::Entry;
use page::pages::page_range;
use page::slots::{insert_slot, remove_slot, set_slot};

// The i-th entry of page p becomes e.
pub fn set_entry(half: usize, img: &mut [u8], p: u32, i: usize, e: Entry)
    requires { PreLevel half img.old (λ l. HasEntry l p i) }
    ensures { PostLevel half img.old (λ l. HasEntry l p i)
        (λ l X. Encodes half img.new (put p (tree l (splice i (e ∷ []) (entries X p))) X)) }
{
    set_slot(half, &mut img[page_range(half, p)], i, e)
}

// e becomes the i-th entry of page p, which has room for it: those from there on move up by a slot.
pub fn insert_entry(half: usize, img: &mut [u8], p: u32, i: usize, e: Entry)
    requires { PreLevel half img.old (λ l. HasRoom half l p i) }
    ensures { PostLevel half img.old (λ l. HasRoom half l p i)
        (λ l X. Encodes half img.new (put p (tree l (inserted i e (entries X p))) X)) }
{
    insert_slot(half, &mut img[page_range(half, p)], i, e)
}

// Page p loses its i-th entry: those behind it move down by a slot, and the last slot is unused then.
pub fn remove_entry(half: usize, img: &mut [u8], p: u32, i: usize)
    requires { PreLevel half img.old (λ l. HasEntry l p i) }
    ensures { PostLevel half img.old (λ l. HasEntry l p i)
        (λ l X. Encodes half img.new (put p (tree l (splice i [] (entries X p))) X)) }
{
    remove_slot(half, &mut img[page_range(half, p)], i)
}
