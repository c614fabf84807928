// "the new first start is carried up to the parent entry that separates the two pages"
ghost use Rattle.std.specs.Prelude.{◌≡◌, true, suc};
ghost use Rattle.steps.specs.Heal.{carry};
ghost use Rattle.store.specs.Encoding.{Encodes, PreLevel, PostLevel};
ghost use Rattle.heal.specs.Edges.{Carriable};

use page::Entry;
use store::edits::set_entry;
use store::entries::entry_of;

// At an edge, an entry that started at t starts where the page below it does: the i-th of page p, if it is one. Another one, and where
// there is no edge every one, stays, and no page is written.
pub(crate) fn carry(half: usize, img: &mut [u8], edge: bool, p: u32, i: usize, t: u32)
    requires { PreLevel half img.old (λ v X. edge ≡ true → Carriable v p i X) }
    ensures { PostLevel half img.old (λ v X. edge ≡ true → Carriable v p i X)
        (λ v X. Encodes half img.new (carry edge t (suc v) p i X)) }
{
    if edge {
        let e = entry_of(half, img, p, i);
        if e.start == t {
            let first = entry_of(half, img, e.child, 0);
            set_entry(
                half,
                img,
                p,
                i,
                Entry {
                    start: first.start,
                    ..e
                },
            );
        }
    }
}
