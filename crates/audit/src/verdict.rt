// Is an image sound, by document 01's rule?
ghost use Rattle.std.specs.Prelude.{◌≡◌, true, ◌+◌, ◌*◌, ◌-◌, ◌≤◌, eqb};
ghost use Rattle.image.specs.Images.{length_ok};
ghost use Rattle.image.specs.Sound.{sound_before};

use super::free::chain_ends;
use super::unused::never_used;
use super::walk::audit_root;
use access::heads::open_head;

// Whether tree and chain have as many pages as lie below the high mark but the head: any number may stand as the chain's length.
fn adds_up(tree: u32, chain: u32, mark: u32) -> bool
    requires { 1 ≤ mark }
    ensures { result ≡ eqb (tree + chain) (mark - 1) }
{
    u64::from(tree) + u64::from(chain) == u64::from(mark - 1)
}

// "An image is sound if head and all tree pages are fit, each page below the high mark except 0 is once in the tree or once in
// the chain, the chain length is true, and free and never used pages read as above." A sound image's length is in range too, which
// every call has tested (16) before this.
pub fn sound_before(half: usize, img: &[u8]) -> bool
    requires { (2 ≤ half) × (half ≤ 12) × (length_ok half img.now ≡ true) }
    ensures { result ≡ sound_before half img.now }
{
    let Some(h) = open_head(half, img) else {
        return false;
    };
    let Some(tree) = audit_root(half, img, h) else {
        return false;
    };
    adds_up(tree, h.chain, h.mark)
        && chain_ends(half, img, h.pages, h.chain, h.free)
        && never_used(half, img, h.pages, h.mark)
}
