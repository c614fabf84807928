// Writing a fresh image: each byte once, and all but two pages by one run of FF.
ghost use Rattle.std.specs.Prelude.{◌≡◌, true, [], ◌∷◌, ◌*◌, ◌≤◌, length};
ghost use Rattle.rule.specs.Pairs.{none};
ghost use Rattle.fields.specs.Bytes.{patch};
ghost use Rattle.page.specs.Entries.{entry};
ghost use Rattle.page.specs.Layout.{page_size, head_bytes, tree_bytes};
ghost use Rattle.image.specs.Images.{pages_in, length_ok, image_bytes, fresh};

use fields::fill::{UNUSED_BYTE, fill};
use page::heads::write_head;
use page::layout::{LEAST_MARK, SLOTS, page_size};
use page::pages::page_range;
use page::write::write_page;
use page::{Head, Page};

// Writes the head: "height 1, changes 0, high mark 2, no chain and root 1".
fn write_fresh_head(half: usize, img: &mut [u8], pages: u32, kind: u32, window: u32, field: u32)
    requires { (1 ≤ half) × (page_size half ≤ length img.old) }
    ensures { img.new ≡ patch img.old 0 (head_bytes half (fresh pages kind window field).head) }
{
    let h = Head {
        pages,
        height: 1,
        root: 1,
        free: 0,
        chain: 0,
        mark: LEAST_MARK,
        kind,
        window,
        changes: 0,
        capacity: field,
    };
    write_head(half, &mut img[page_range(half, 0)], h)
}

// Writes the root on page 1: "a leaf with entry 0, (0, 0)".
fn write_fresh_root(half: usize, img: &mut [u8])
    requires { (1 ≤ half) × (half ≤ 12) × (2 * page_size half ≤ length img.old) }
    ensures { img.new ≡ patch img.old (page_size half) (tree_bytes half 0 (entry 0 none 0 ∷ [])) }
{
    let root = Page {
        level: 0,
        len: 1,
        starts: [0; SLOTS],
        sums: [0; SLOTS],
        counts: [0; SLOTS],
        children: [0; SLOTS],
    };
    write_page(half, &mut img[page_range(half, 1)], root)
}

// "Format leaves height 1, changes 0, high mark 2, no chain and root 1, a leaf with entry 0, (0, 0)." The field is the capacity's.
pub fn write_fresh(half: usize, img: &mut [u8], kind: u32, window: u32, field: u32)
    requires { (1 ≤ half) × (half ≤ 12) × (length_ok half img.old ≡ true) }
    ensures { img.new ≡ image_bytes half (fresh (pages_in half img.old) kind window field) }
{
    let length = img.len();
    let size = page_size(half);
    write_fresh_head(half, img, (length / size) as u32, kind, window, field);
    write_fresh_root(half, img);
    fill(img, 2 * size, length - 2 * size, UNUSED_BYTE);
}
