// Writing a tree page: every one of its bytes, so that nothing of what stood there is left.
ghost use Rattle.std.specs.Prelude.{◌≡◌, ◌≤◌, length};
ghost use Rattle.page.specs.Layout.{capacity, page_size, tree_bytes};
ghost use Rattle.page.specs.Decoded.{entry_list};

use super::Page;
use super::blank::write_blank;
use super::slots::set_slot;

// Writes a tree page.
pub fn write_page(half: usize, s: &mut [u8], p: Page)
    requires { (half ≤ 12) × (length s.old ≡ page_size half) × (p.len ≤ capacity half) }
    ensures { s.new ≡ tree_bytes half p.level (entry_list p) }
{
    write_blank(half, s, p.level, p.len as u32);
    for i in 0..p.len {
        set_slot(half, s, i, p.entry(i));
    }
}
