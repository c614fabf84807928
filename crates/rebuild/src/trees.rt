// The whole tree, from the runs that are listed at the front of the target.
ghost use Rattle.std.specs.Prelude.{◌≡◌, suc, ◌*◌, ◌≤◌, ◌<◌, length};
ghost use Rattle.lists.specs.Lists.{concat_map};
ghost use Rattle.fields.specs.Bytes.{patch};
ghost use Rattle.page.specs.Layout.{page_size};
ghost use Rattle.image.specs.Images.{cell_bytes};
ghost use Rattle.tight.specs.Tight.{pages_used, cells};
ghost use Rattle.rebuild.specs.Levels.{run_entries};

use crate::leaves::write_leaves;
use crate::levels::write_level;
use crate::sizes::pages_for;

// "Leaf pages come first from page 1 in time order, then each level." The last level is one page, the root.
pub fn write_tree(half: usize, img: &mut [u8], runs: u32)
    requires some_runs { (2 ≤ half) × (half ≤ 12) × (1 ≤ runs) }
    requires room { (pages_used half runs < 4294967295) × (page_size half * suc (pages_used half runs) ≤ length img.old) }
    ensures { img.new
        ≡ patch img.old (page_size half)
        (concat_map (cell_bytes half) (cells half runs 0 1 (run_entries img.old runs))) }
{
    let mut n = pages_for(half, runs);
    write_leaves(half, img, runs, n);
    let mut level = 0;
    let mut below = 1;
    while 1 < n {
        let pages = pages_for(half, n);
        level += 1;
        write_level(half, img, level, below, n, pages);
        below += n;
        n = pages;
    }
}
