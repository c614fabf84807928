// 24: are there pages enough for the two cuts?
ghost use Rattle.std.specs.Prelude.{◌≡◌, ◌<◌};
ghost use Rattle.image.specs.Images.{image_of};
ghost use Rattle.steps.specs.Change.{lacks_pages};
ghost use Rattle.page_need.specs.Needs.{cuts_need};
ghost use Rattle.page_need.specs.Leads.{SoundImage};

use super::Need;
use super::walk::{both_cuts, one_cut};
use page::Head;
use rule::limits::END;
use store::root::root_entry;

// What the two cuts ask for from the root down: "nothing if t is END".
fn cuts_need(half: usize, img: &[u8], h: Head, s: u32, e: u32) -> Need
    requires sound_image { SoundImage half img.now h }
    requires span { s < e }
    ensures { result ≡ cuts_need half s e (image_of half img.now) }
{
    let root = root_entry(h);
    if e == END {
        return one_cut(half, img, s, h.height, root, END);
    }
    both_cuts(half, img, s, e, h.height, root, END)
}

// 24's condition, of a sound image and its head, before anything is written: "A and B together take more pages than chain and
// pages from the high mark hold".
pub fn lacks_pages(half: usize, img: &[u8], h: Head, s: u32, e: u32) -> bool
    requires sound_image { SoundImage half img.now h }
    requires span { s < e }
    ensures { result ≡ lacks_pages half s e (image_of half img.now) }
{
    let n = cuts_need(half, img, h, s, e);
    let held = h.chain as u64 + (h.pages - h.mark) as u64;
    held < (n.adds + n.pages) as u64
}
