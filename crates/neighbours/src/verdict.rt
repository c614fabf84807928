// Is an image sound? Document 01's rule, and for kind 1 the clause of document 02, (iv).
ghost use Rattle.std.specs.Prelude.{◌≡◌, true, ◌≤◌};
ghost use Rattle.page.specs.Layout.{head_of};
ghost use Rattle.image.specs.Images.{page_at, length_ok};
ghost use Rattle.image.specs.Sound.{sound_before, sound};
ghost use Rattle.image.specs.Neighbours.{neighbours_apart};

use super::walk::page_edges;
use access::pages::page_at;
use audit::verdict::sound_before;
use page::heads::read_head;
use rule::limits::TOTALS;

// "no two neighbouring leaf entries have equal totals": of an image that the audit has found sound but for this, and of kind 1.
pub fn neighbours_apart(half: usize, img: &[u8]) -> bool
    requires sound_before { (2 ≤ half) × (half ≤ 12) × (sound_before half img.now ≡ true) }
    requires totals { (head_of (page_at half img.now 0)).kind ≡ 1 }
    ensures { result ≡ neighbours_apart half img.now }
{
    let h = read_head(page_at(half, img, 0));
    page_edges(half, img, h.height - 1, h.root).apart
}

// "a kind 1 image is sound only if no two neighbouring leaf entries have equal totals". Every call has tested the length (16) before this.
pub fn sound(half: usize, img: &[u8]) -> bool
    requires { (2 ≤ half) × (half ≤ 12) × (length_ok half img.now ≡ true) }
    ensures { result ≡ sound half img.now }
{
    if !sound_before(half, img) {
        return false;
    }
    let h = read_head(page_at(half, img, 0));
    h.kind != TOTALS || neighbours_apart(half, img)
}
