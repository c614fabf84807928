// The tight image, written into the target. Document 02, (iii).
ghost use Rattle.std.specs.Prelude.{◌≡◌, ◌*◌, ◌-◌, ◌≤◌, ◌<◌, length};
ghost use Rattle.fields.specs.Bytes.{patch, unused};
ghost use Rattle.page.specs.Layout.{page_size, head_bytes};
ghost use Rattle.image.specs.Images.{pages_in};
ghost use Rattle.tight.specs.Tight.{tight_head};
ghost use Rattle.calls.specs.Calls.{rebuilt_bytes};
ghost use Rattle.rebuild.specs.Levels.{tree_size};
ghost use Rattle.rebuild.specs.Rebuild.{Rebuildable};

use crate::TreeSize;
use crate::trees::write_tree;
use access::lengths::page_count;
use fields::fill::{UNUSED_BYTE, fill};
use listing::passes::write_runs;
use page::Head;
use page::heads::write_head;
use page::layout::{capacity, page_size};
use page::pages::page_range;
use rule::limits::END;

// "the chain is empty, the high mark follows the last page used; kind, window and changes are kept", h being the source's head. "A rebuild
// keeps K .. and writes the field".
fn tight_head(half: usize, pages: u32, tree: TreeSize, h: Head) -> Head
    requires { (half ≤ 12) × (tree.pages < 4294967295) }
    ensures { result ≡ tight_head half pages h.kind h.window h.changes tree.pages tree.height }
{
    Head {
        pages,
        height: tree.height,
        root: tree.pages,
        free: 0,
        chain: 0,
        mark: tree.pages + 1,
        capacity: capacity(half) as u32,
        ..h
    }
}

// Writes FF behind the last page used, "From the high mark on, pages are all FF", and then the head over the front of the listing. The head
// comes last: until it is begun no fit head stands there, since the listing's first number, the start 0, is no number of pages.
fn write_ends(half: usize, img: &mut [u8], h: Head)
    requires { (1 ≤ half) × (half ≤ 12) × (1 ≤ h.mark) × (page_size half * h.mark ≤ length img.old) }
    ensures { img.new
        ≡ patch
        (patch img.old (page_size half * h.mark) (unused (length img.old - page_size half * h.mark)))
        0 (head_bytes half h) }
{
    let end = page_size(half) * h.mark as usize;
    let length = img.len();
    fill(img, end, length - end, UNUSED_BYTE);
    write_head(half, &mut img[page_range(half, 0)], h);
}

// Writes the tight image of the source's runs over all of the target: `runs` of them, in a tree of that size, for which it has pages enough.
// The runs are listed at its front first, and overwritten by what is made of them.
pub fn write_tight(
    half: usize,
    source: &[u8],
    h: Head,
    target: &mut [u8],
    runs: u32,
    tree: TreeSize,
)
    requires { Rebuildable half source.now h target.old runs × (tree ≡ tree_size half runs) }
    ensures { target.new ≡ rebuilt_bytes half source.now (pages_in half target.old) }
{
    write_runs(half, source, h, 0, END, target);
    write_tree(half, target, runs);
    let pages = page_count(half, target) as u32;
    write_ends(half, target, tight_head(half, pages, tree, h));
}
