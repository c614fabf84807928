// A page of the image: its bytes, lent on.
ghost use Rattle.std.specs.Prelude.{◌≡◌};
ghost use Rattle.image.specs.Images.{page_at};
ghost use Rattle.access.specs.Access.{PageIn};

use page::pages::page_range;

// The bytes of page p.
pub fn page_at(half: usize, img: &[u8], p: u32) -> &[u8]
    requires { PageIn half img.now p }
    ensures { result.now ≡ page_at half img.now p }
{
    &img[page_range(half, p)]
}
