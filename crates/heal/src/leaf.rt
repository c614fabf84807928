// "Heal at t: only if t starts a leaf entry that isn't first in its page, with the same pair as the one before; it goes." So does the one
// that is first, if an edge joins there.
ghost use Rattle.std.specs.Prelude.{◌≡◌, ℕ};
ghost use Rattle.rule.specs.Pairs.{combine};
ghost use Rattle.steps.specs.Supply.{entries};
ghost use Rattle.steps.specs.Heal.{heals, heal_page};
ghost use Rattle.store.specs.Encoding.{Encodes, Pre, Post, PreLevel, PostLevel};
ghost use Rattle.store.specs.Preconditions.{Searchable};
ghost use Rattle.heal.specs.Healable.{EntryRead};

use page::Entry;
use store::edits::remove_entry;
use store::entries::{entry_of, find_entry};

// Whether the i-th entry of page p goes, which was read as e.
fn heals(half: usize, img: &[u8], p: u32, i: usize, e: Entry, t: u32) -> bool
    requires { PreLevel half img.now (λ v. EntryRead e v p i) }
    ensures { PostLevel half img.now (λ v. EntryRead e v p i) (λ v X. result ≡ heals t (entries X p) i) }
{
    if i == 0 {
        return false;
    }
    let before = entry_of(half, img, p, i - 1);
    e.start == t && e.pair == before.pair
}

// The leaf p, which ends at hi. Nothing is written where no entry goes. The kind's rule has no part in it.
pub(crate) fn heal_leaf(half: usize, img: &mut [u8], edge: bool, p: u32, hi: u32, t: u32)
    requires { Pre half img.old (Searchable 0 p t) }
    ensures { Post half img.old (Searchable 0 p t)
        (λ X. (kind : ℕ) → Encodes half img.new (heal_page half (combine kind) edge t 0 p X)) }
{
    let found = find_entry(half, img, p, hi, t);
    let i = found.index;
    if edge || heals(half, img, p, i, found.entry, t) {
        remove_entry(half, img, p, i);
    }
}
