// The levels above the leaves, each made of the pages below it.
ghost use Rattle.std.specs.Prelude.{◌≡◌, ◌+◌, ◌*◌, ◌≤◌, length};
ghost use Rattle.fields.specs.Bytes.{patch};
ghost use Rattle.page.specs.Layout.{page_size};
ghost use Rattle.tight.specs.Tight.{pages_for};
ghost use Rattle.rebuild.specs.Levels.{page_entries_from, level_bytes};

use crate::entries::PagesFrom;
use crate::pages::write_page;
use crate::sizes::page_entries;

// Writes the pages of a level right behind the level below it, which has n pages from page number `below` on.
pub fn write_level(half: usize, img: &mut [u8], level: u32, below: u32, n: u32, pages: u32)
    requires some_pages { (1 ≤ half) × (half ≤ 12) × (1 ≤ n) × (pages ≡ pages_for half n) }
    requires room { (below + n + pages ≤ 4294967295) × (page_size half * (below + n + pages) ≤ length img.old) }
    ensures { img.new
        ≡ patch img.old (page_size half * (below + n))
        (level_bytes half level (page_entries_from half img.old below n)) }
{
    let least = n / pages;
    let larger = n % pages;
    let mut first = below;
    for i in 0..pages {
        let size = page_entries(least, larger, i);
        let lead = PagesFrom { half, first };
        write_page(half, img, below + n + i, level, size as usize, lead);
        first += size;
    }
}
