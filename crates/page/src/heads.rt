// Reading and writing page 0, the head.
ghost use Rattle.std.specs.Prelude.{◌≡◌, ◌≤◌, length};
ghost use Rattle.fields.specs.Bytes.{patch};
ghost use Rattle.fields.specs.Numbers.{u32_bytes};
ghost use Rattle.lists.specs.Lists.{concat_map};
ghost use Rattle.page.specs.Layout.{page_size, head_of, head_numbers, head_bytes};

use super::Head;
use super::layout::{
    HEAD_BYTES, HEAD_CAPACITY, HEAD_CHAIN, HEAD_CHANGES, HEAD_FREE, HEAD_HEIGHT, HEAD_KIND,
    HEAD_MARK, HEAD_PAGES, HEAD_ROOT, HEAD_WINDOW, page_size,
};
use fields::field::Field;
use fields::fill::{UNUSED_BYTE, fill};

// The head's numbers.
pub fn read_head(s: &[u8]) -> Head
    requires { 40 ≤ length s.now }
    ensures { result ≡ head_of s.now }
{
    Head {
        pages: u32::read_at(s, HEAD_PAGES),
        height: u32::read_at(s, HEAD_HEIGHT),
        root: u32::read_at(s, HEAD_ROOT),
        free: u32::read_at(s, HEAD_FREE),
        chain: u32::read_at(s, HEAD_CHAIN),
        mark: u32::read_at(s, HEAD_MARK),
        kind: u32::read_at(s, HEAD_KIND),
        window: u32::read_at(s, HEAD_WINDOW),
        changes: u32::read_at(s, HEAD_CHANGES),
        capacity: u32::read_at(s, HEAD_CAPACITY),
    }
}

// Writes the head's numbers, and nothing behind them.
pub fn write_numbers(s: &mut [u8], h: Head)
    requires { 40 ≤ length s.old }
    ensures { s.new ≡ patch s.old 0 (concat_map u32_bytes (head_numbers h)) }
{
    h.pages.write_at(s, HEAD_PAGES);
    h.height.write_at(s, HEAD_HEIGHT);
    h.root.write_at(s, HEAD_ROOT);
    h.free.write_at(s, HEAD_FREE);
    h.chain.write_at(s, HEAD_CHAIN);
    h.mark.write_at(s, HEAD_MARK);
    h.kind.write_at(s, HEAD_KIND);
    h.window.write_at(s, HEAD_WINDOW);
    h.changes.write_at(s, HEAD_CHANGES);
    h.capacity.write_at(s, HEAD_CAPACITY);
}

// Writes the head: its numbers, the rest unused.
pub fn write_head(half: usize, s: &mut [u8], h: Head)
    requires { (1 ≤ half) × (length s.old ≡ page_size half) }
    ensures { s.new ≡ head_bytes half h }
{
    write_numbers(s, h);
    fill(s, HEAD_BYTES, page_size(half) - HEAD_BYTES, UNUSED_BYTE);
}
