// A page of the tight image, written where it is to stand.
ghost use Rattle.std.specs.Prelude.{◌≡◌, ℕ, ◌+◌, ◌*◌, ◌≤◌, ◌<◌, List, length};
ghost use Rattle.lists.specs.Lists.{listed};
ghost use Rattle.fields.specs.Bytes.{patch};
ghost use Rattle.page.specs.Layout.{capacity, page_size, tree_bytes};

use crate::entries::Entries;
use page::blank::write_blank;
use page::pages::page_range;
use page::slots::set_slot;

// Writes page p with `size` entries. They are read from what lies before the page, so that none of it is overwritten.
pub(crate) fn write_page<E: Entries>(
    half: usize,
    img: &mut [u8],
    p: u32,
    level: u32,
    size: usize,
    entries: E,
)
    requires few { (half ≤ 12) × (size ≤ capacity half) }
    requires within { page_size half * p + page_size half ≤ length img.old }
    requires before { (i : ℕ) → i < size → E.asks entries i × (E.reach entries i ≤ page_size half * p) }
    requires kept { (i : ℕ) → i < size → (s bs : List ℕ) → page_size half * p ≤ length s
        → E.told entries (patch s (page_size half * p) bs) i ≡ E.told entries s i }
    ensures { img.new
        ≡ patch img.old (page_size half * p) (tree_bytes half level (listed size (E.told entries img.old))) }
{
    write_blank(half, &mut img[page_range(half, p)], level, size as u32);
    for i in 0..size {
        let e = entries.entry(img, i);
        set_slot(half, &mut img[page_range(half, p)], i, e);
    }
}
