// The pages of an image: where a page's bytes stand.
ghost use Rattle.std.specs.Prelude.{◌≡◌, ◌+◌, ◌*◌, ◌^◌, ◌<◌};
ghost use Rattle.page.specs.Layout.{page_size};

use super::layout::page_size;
use std::ops::Range;

// Where the bytes of page p stand: `&img[page_range(half, p)]` reads the page, `&mut img[page_range(half, p)]` lends it on to be written.
pub fn page_range(half: usize, p: u32) -> Range<usize>
    requires { page_size half * p + page_size half < 2 ^ 64 }
    ensures { (result.start ≡ page_size half * p) × (result.end ≡ page_size half * p + page_size half) }
{
    let size = page_size(half);
    let a = size * p as usize;
    a..a + size
}
