// The head's numbers on the tree, and the count of changes.
ghost use Rattle.std.specs.Prelude.{◌≡◌};
ghost use Rattle.rule.specs.Pairs.{none};
ghost use Rattle.page.specs.Entries.{entry};
ghost use Rattle.steps.specs.Supply.{with_root, count_change};
ghost use Rattle.store.specs.Encoding.{Encodes, Pre, Post, Any};
ghost use Rattle.store.specs.Preconditions.{Countable};

use super::heads::{head_of, set_head};
use page::{Entry, Head};
use rule::Pair;

// The root as an entry.
pub fn root_entry(h: Head) -> Entry
    ensures { result ≡ entry 0 none h.root }
{
    Entry {
        start: 0,
        pair: Pair::NONE,
        child: h.root,
    }
}

// The root is page p now, at that height.
pub fn set_root(half: usize, img: &mut [u8], height: u32, p: u32)
    requires { Pre half img.old Any }
    ensures { Post half img.old Any (λ X. Encodes half img.new (with_root height p X)) }
{
    let h = head_of(half, img);
    set_head(
        img,
        Head {
            height,
            root: p,
            ..h
        },
    );
}

// "Then changes rises by 1."
pub fn count_change(half: usize, img: &mut [u8])
    requires { Pre half img.old Countable }
    ensures { Post half img.old Countable (λ X. Encodes half img.new (count_change X)) }
{
    let h = head_of(half, img);
    set_head(
        img,
        Head {
            changes: h.changes + 1,
            ..h
        },
    );
}
