// The head of an image.
ghost use Rattle.std.specs.Prelude.{◌≡◌, true, ◌≤◌};
ghost use Rattle.image.specs.Images.{length_ok};
ghost use Rattle.access.specs.Access.{head_check};

use crate::pages::page_at;
use fit::head::head_fit;
use page::Head;
use page::heads::read_head;
use page::layout::{MOST_HALF, page_size};

// The head's numbers, if it is fit for an image of this length. Its own number of pages is held against the length, so that nothing has
// to be divided. For the greatest pages the compiler knows how long the head's rest is: 8 ns of an instant.
pub fn open_head(half: usize, img: &[u8]) -> Option<Head>
    requires { (2 ≤ half) × (half ≤ 12) × (length_ok half img.now ≡ true) }
    ensures { result ≡ head_check half img.now }
{
    let s = page_at(half, img, 0);
    let h = read_head(s);
    let whole = page_size(half) * h.pages as usize == img.len();
    let fits = if half == MOST_HALF {
        head_fit(MOST_HALF, s, h.pages)
    } else {
        head_fit(half, s, h.pages)
    };
    (whole & fits).then_some(h)
}
