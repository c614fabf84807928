// A page of the image.
ghost use Rattle.std.specs.Prelude.{◌≡◌, ℕ, ◌≤◌, ◌<◌};
ghost use Rattle.page.specs.Decoded.{entry_list};
ghost use Rattle.page.specs.Layout.{capacity};
ghost use Rattle.image.specs.Images.{tree, free};
ghost use Rattle.steps.specs.Supply.{entries, put};
ghost use Rattle.store.specs.Encoding.{Encodes, Pre, Post, PostLevel, Loaded};
ghost use Rattle.store.specs.Preconditions.{InImage, TreePage};

use access::pages::page_at;
use page::Page;
use page::at::next_of;
use page::blank::write_free;
use page::pages::page_range;
use page::read::read_page;
use page::write::write_page;

// The tree page p as a struct.
pub fn load(half: usize, img: &[u8], p: u32) -> Page
    requires { Pre half img.now (InImage p) }
    ensures { PostLevel half img.now (λ l. TreePage l p) (λ l X. Loaded half l (entries X p) result) }
{
    read_page(half, page_at(half, img, p))
}

// The page behind the free page p in the chain, 0 at its end.
pub(crate) fn next_free(half: usize, img: &[u8], p: u32) -> u32
    requires { Pre half img.now (InImage p) }
    ensures { Post half img.now (InImage p) (λ X. (next : ℕ) → X.page p ≡ free next → result ≡ next) }
{
    next_of(page_at(half, img, p))
}

// Page p becomes the tree page of a struct.
pub fn save(half: usize, img: &mut [u8], p: u32, page: Page)
    requires in_image { Pre half img.old (InImage p) }
    requires writable { (page.level < 255) × (page.len ≤ capacity half) }
    ensures { Post half img.old (InImage p)
        (λ X. Encodes half img.new (put p (tree page.level (entry_list page)) X)) }
{
    write_page(half, &mut img[page_range(half, p)], page)
}

// Page p becomes a free page.
pub(crate) fn set_free(half: usize, img: &mut [u8], p: u32, next: u32)
    requires { Pre half img.old (InImage p) }
    ensures { Post half img.old (InImage p) (λ X. Encodes half img.new (put p (free next) X)) }
{
    write_free(half, &mut img[page_range(half, p)], next)
}
