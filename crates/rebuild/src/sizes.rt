// How many pages a number of entries takes: told before anything is written.
ghost use Rattle.std.specs.Prelude.{◌≡◌, cond, ◌+◌, ◌≤◌, ◌<◌, ltb};
ghost use Rattle.tight.specs.Tight.{pages_for};
ghost use Rattle.rebuild.specs.Levels.{tree_size};

use crate::TreeSize;
use page::layout::capacity;

// The pages of a level with m entries: one for each full page of those ahead of the last entry, and one more, so that nothing wraps.
pub fn pages_for(half: usize, m: u32) -> u32
    requires { (1 ≤ half) × (half ≤ 12) × (1 ≤ m) }
    ensures { result ≡ pages_for half m }
{
    let k = capacity(half) as u32;
    (m - 1) / k + 1
}

// How many entries the i-th page of a level has: "sizes differing by at most one, larger first".
pub fn page_entries(least: u32, larger: u32, i: u32) -> u32
    requires { least < 4294967295 }
    ensures { result ≡ least + cond (ltb i larger) 1 0 }
{
    least + u32::from(i < larger)
}

// The pages and the levels of a tree with m leaf entries, level by level up to the one that is one page.
pub fn tree_size(half: usize, m: u32) -> TreeSize
    requires { (2 ≤ half) × (half ≤ 12) × (1 ≤ m) }
    ensures { result ≡ tree_size half m }
{
    let mut level = pages_for(half, m);
    let mut pages = level;
    let mut height = 1;
    while 1 < level {
        level = pages_for(half, level);
        pages += level;
        height += 1;
    }
    TreeSize { pages, height }
}
