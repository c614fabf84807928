// Reading a tree page as a struct.
ghost use Rattle.std.specs.Prelude.{◌≡◌, ◌≤◌, length};
ghost use Rattle.page.specs.Layout.{page_size};
ghost use Rattle.page.specs.Decoded.{Read};

use super::Page;
use super::at::{entry_at, entry_count, level_of};
use super::layout::{SLOTS, capacity};

// The page as a struct: all its slots are read, whatever the count is.
pub fn read_page(half: usize, s: &[u8]) -> Page
    requires { (half ≤ 12) × (length s.now ≡ page_size half) }
    ensures { Read half result s.now }
{
    let mut page = Page {
        level: level_of(s),
        len: entry_count(s) as usize,
        starts: [0; SLOTS],
        sums: [0; SLOTS],
        counts: [0; SLOTS],
        children: [0; SLOTS],
    };
    for i in 0..capacity(half) {
        page.set_entry(i, entry_at(half, s, i));
    }
    page
}
