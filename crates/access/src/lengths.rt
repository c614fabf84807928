// 16: "image length not 512 × n for an n in range", the bytes of a page being 32 + 20 × K.
ghost use Rattle.std.specs.Prelude.{◌≡◌, ◌≤◌};
ghost use Rattle.image.specs.Images.{pages_in, length_ok};

use page::layout::{FEWEST_PAGES, MOST_HALF, MOST_PAGES, PAGE_BYTES, page_size};

// How many pages a length holds. Pages of the greatest capacity are counted by a shift: a division is 10 ns of an instant.
pub fn page_count(half: usize, img: &[u8]) -> usize
    requires { half ≤ 12 }
    ensures { result ≡ pages_in half img.now }
{
    if half == MOST_HALF {
        return img.len() / PAGE_BYTES;
    }
    img.len() / page_size(half)
}

// Whether the length is that of n pages, n from 2 to 1,024.
pub fn length_fits(half: usize, img: &[u8]) -> bool
    requires { half ≤ 12 }
    ensures { result ≡ length_ok half img.now }
{
    let n = page_count(half, img);
    (img.len() == page_size(half) * n) & (FEWEST_PAGES..=MOST_PAGES).contains(&n)
}
