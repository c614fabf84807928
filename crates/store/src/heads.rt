// Page 0, the head.
ghost use Rattle.std.specs.Prelude.{◌≡◌, ◌≤◌, length};
ghost use Rattle.store.specs.Encoding.{Pre, Post, Any, HeadSet};

use access::pages::page_at;
use page::Head;
use page::heads::{read_head, write_numbers};

// The head's numbers.
pub fn head_of(half: usize, img: &[u8]) -> Head
    requires { Pre half img.now Any }
    ensures { Post half img.now Any (λ X. result ≡ X.head) }
{
    read_head(page_at(half, img, 0))
}

// The head becomes h, for the same number of pages: its ten numbers are written, since what stands behind them is unused already.
pub(crate) fn set_head(img: &mut [u8], h: Head)
    requires { 40 ≤ length img.old }
    ensures { HeadSet h img.old img.new }
{
    write_numbers(img, h)
}
