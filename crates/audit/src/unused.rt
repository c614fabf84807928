// "From the high mark on, pages are all FF."
ghost use Rattle.std.specs.Prelude.{◌≡◌, ◌+◌, ◌*◌, ◌-◌, ◌≤◌, length};
ghost use Rattle.fields.specs.Bytes.{every};
ghost use Rattle.page.specs.Layout.{page_size, never_used_ok};
ghost use Rattle.image.specs.Images.{page_at};

use fields::fill::blocks_ff;
use page::layout::page_size;

// Whether the pages from the high mark on, up to n, are all FF: one run of words, whatever the size of a page.
pub(crate) fn never_used(half: usize, img: &[u8], n: u32, mark: u32) -> bool
    requires { (half ≤ 12) × (length img.now ≡ page_size half * n) × (mark ≤ n) }
    ensures { result ≡ every (n - mark) (λ i. never_used_ok (page_at half img.now (mark + i))) }
{
    let words = page_size(half) / 8;
    blocks_ff(
        img,
        8 * (words * mark as usize),
        words * (n - mark) as usize,
    )
}
