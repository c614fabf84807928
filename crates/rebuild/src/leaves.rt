// The leaf pages, made of the runs that are listed at the front of the target.
ghost use Rattle.std.specs.Prelude.{◌≡◌, suc, ◌*◌, ◌≤◌, length};
ghost use Rattle.fields.specs.Bytes.{patch};
ghost use Rattle.page.specs.Layout.{page_size};
ghost use Rattle.tight.specs.Tight.{pages_for};
ghost use Rattle.rebuild.specs.Levels.{run_entries, level_bytes};

use crate::entries::ListedRuns;
use crate::pages::write_page;
use crate::sizes::page_entries;

// Writes the leaf pages from page 1 on. The last is written first: its page lies behind the runs of all pages before it, so no run is
// overwritten that has yet to be read.
pub fn write_leaves(half: usize, img: &mut [u8], runs: u32, pages: u32)
    requires some_runs { (1 ≤ half) × (half ≤ 12) × (1 ≤ runs) × (pages ≡ pages_for half runs) }
    requires room { page_size half * suc pages ≤ length img.old }
    ensures { img.new
        ≡ patch img.old (page_size half) (level_bytes half 0 (run_entries img.old runs)) }
{
    let least = runs / pages;
    let larger = runs % pages;
    let mut from = runs;
    for i in (0..pages).rev() {
        let size = page_entries(least, larger, i);
        from -= size;
        let from = from as usize;
        write_page(half, img, i + 1, 0, size as usize, ListedRuns { from });
    }
}
