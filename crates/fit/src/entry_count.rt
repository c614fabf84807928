// "it has 12 to 24 entries (root leaf 1 to 24, inner root 2 to 24)", which is K/2 to K at K = 24.
ghost use Rattle.std.specs.Prelude.{◌≡◌, length};
ghost use Rattle.page.specs.Layout.{page_size};
ghost use Rattle.page.specs.Fit.{fewest, entry_count_ok};

use page::PageContext;
use page::at::entry_count;
use page::layout::capacity;

// The fewest entries of a page in a context.
fn fewest(half: usize, at: PageContext) -> usize
    ensures { result ≡ fewest half at }
{
    if !at.is_root {
        return half;
    }
    if at.level == 0 { 1 } else { 2 }
}

// Whether the count of entries may stand in a page in a context: the page may be worn, so nothing may use the count before.
pub(crate) fn entry_count_ok(half: usize, s: &[u8], at: PageContext) -> bool
    requires { length s.now ≡ page_size half }
    ensures { result ≡ entry_count_ok half at s.now }
{
    let len = entry_count(s) as usize;
    (fewest(half, at) <= len) & (len <= capacity(half))
}
