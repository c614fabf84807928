// Writing a page without entries: one about to get some, a free page, a page that was never used.
ghost use Rattle.std.specs.Prelude.{◌≡◌, ◌++◌, ◌-◌, length};
ghost use Rattle.fields.specs.Bytes.{unused};
ghost use Rattle.fields.specs.Numbers.{u32_bytes};
ghost use Rattle.page.specs.Layout.{page_size, free_bytes};

use super::layout::{ENTRY_COUNT_OFFSET, FREE_LEVEL, GAP_OFFSET, LEVEL_OFFSET, page_size};
use fields::field::Field;
use fields::fill::{UNUSED_BYTE, fill};

// Writes a page of two numbers, the rest unused.
pub fn write_blank(half: usize, s: &mut [u8], level: u32, second: u32)
    requires { length s.old ≡ page_size half }
    ensures { s.new ≡ u32_bytes level ++ (u32_bytes second ++ unused (page_size half - 8)) }
{
    level.write_at(s, LEVEL_OFFSET);
    second.write_at(s, ENTRY_COUNT_OFFSET);
    fill(s, GAP_OFFSET, page_size(half) - GAP_OFFSET, UNUSED_BYTE);
}

// Writes a free page with the page behind it in the chain, 0 at its end.
pub fn write_free(half: usize, s: &mut [u8], next: u32)
    requires { length s.old ≡ page_size half }
    ensures { s.new ≡ free_bytes half next }
{
    write_blank(half, s, FREE_LEVEL, next)
}
