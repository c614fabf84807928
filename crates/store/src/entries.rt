// The entries of a tree page, read from its bytes one at a time: no page is decoded for a number or two.
ghost use Rattle.std.specs.Prelude.{◌≡◌, ◌≤◌, length};
ghost use Rattle.page.specs.Entries.{at};
ghost use Rattle.page.specs.Layout.{capacity};
ghost use Rattle.steps.specs.Supply.{entries};
ghost use Rattle.steps.specs.Combine.{end_in};
ghost use Rattle.store.specs.Encoding.{PreLevel, PostLevel};
ghost use Rattle.store.specs.Preconditions.{TreePage, HasEntry, Searchable, found_in};

use super::Found;
use access::pages::page_at;
use fit::contexts::end_at;
use lookup::find::find;
use page::Entry;
use page::at::{entry_at, entry_count};

// How many entries page p has.
pub fn entry_count_in(half: usize, img: &[u8], p: u32) -> usize
    requires { PreLevel half img.now (λ l. TreePage l p) }
    ensures { PostLevel half img.now (λ l. TreePage l p) (λ l X. (result ≡ length (entries X p)) × (result ≤ capacity half)) }
{
    entry_count(page_at(half, img, p)) as usize
}

// The i-th entry of page p.
pub fn entry_of(half: usize, img: &[u8], p: u32, i: usize) -> Entry
    requires { PreLevel half img.now (λ l. HasEntry l p i) }
    ensures { PostLevel half img.now (λ l. HasEntry l p i) (λ l X. result ≡ at (entries X p) i) }
{
    entry_at(half, page_at(half, img, p), i)
}

// Where the i-th entry of page p ends, if the page ends at hi.
pub fn entry_end(half: usize, img: &[u8], p: u32, hi: u32, i: usize) -> u32
    requires { PreLevel half img.now (λ l. HasEntry l p i) }
    ensures { PostLevel half img.now (λ l. HasEntry l p i) (λ l X. result ≡ end_in hi (entries X p) i) }
{
    end_at(page_at(half, img, p), hi, i)
}

// The last entry of page p starting at t or before, if the page ends at hi.
pub fn find_entry(half: usize, img: &[u8], p: u32, hi: u32, t: u32) -> Found
    requires { PreLevel half img.now (λ l. Searchable l p t) }
    ensures { PostLevel half img.now (λ l. Searchable l p t) (λ l X. result ≡ found_in hi t (entries X p)) }
{
    let s = page_at(half, img, p);
    let count = entry_count(s) as usize;
    let found = find(s, count, hi, t);
    Found {
        count,
        index: found.index,
        entry: entry_at(half, s, found.index),
        end: found.end,
    }
}
