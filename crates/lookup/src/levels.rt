// A page on the path to an instant.
ghost use Rattle.std.specs.Prelude.{◌≡◌, ◌≤◌, length};
ghost use Rattle.page.specs.Layout.{page_size};
ghost use Rattle.image.specs.Images.{page_at};
ghost use Rattle.access.specs.Access.{PageIn};
ghost use Rattle.lookup.specs.Levels.{OnPath, level_answer};

use super::LevelAnswer;
use super::find::find;
use access::pages::page_at;
use fit::tree_page::page_fit;
use page::at::{entry_at, entry_count};
use page::{Head, PageContext};

// The answer of a page in its context: the page may be worn, so nothing in it is used before it is found fit.
fn page_answer(half: usize, s: &[u8], h: Head, at: PageContext, t: u32) -> LevelAnswer
    requires page { (1 ≤ half) × (length s.now ≡ page_size half) }
    requires on_path { OnPath at t }
    ensures { result ≡ level_answer half h at t s.now }
{
    if !page_fit(half, s, h, at) {
        return LevelAnswer::Unfit;
    }
    let found = find(s, entry_count(s) as usize, at.hi, t);
    LevelAnswer::Entry(entry_at(half, s, found.index), found.end)
}

// The answer of page p of the image.
pub(crate) fn level_answer(
    half: usize,
    img: &[u8],
    p: u32,
    h: Head,
    at: PageContext,
    t: u32,
) -> LevelAnswer
    requires inside { (1 ≤ half) × PageIn half img.now p }
    requires on_path { OnPath at t }
    ensures { result ≡ level_answer half h at t (page_at half img.now p) }
{
    page_answer(half, page_at(half, img, p), h, at, t)
}
