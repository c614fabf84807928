// What a page of the tight image is filled with: entries that are read, one by one, from what lies before the page.
ghost use Rattle.std.specs.Prelude.{◌≡◌, ℕ, ◌+◌, ◌*◌, ◌≤◌, List, length};
ghost use Rattle.page.specs.declared.Entry.{Entry};
ghost use Rattle.page.specs.Layout.{page_size};
ghost use Rattle.rebuild.specs.Levels.{run_entry, page_entry};

use access::pages::page_at;
use page::Entry;
use page::at::start_at;
use rule::Pair;
use runs::listed::run_at;

pub(crate) trait Entries: Copy {
    // the i-th entry by an image's bytes, how many of these bytes tell it, and whether it has a number
    ghost told: { Self → List ℕ → ℕ → Entry };

    ghost reach: { Self → ℕ → ℕ };

    ghost asks: { Self → ℕ → Type 0 };

    // The i-th entry.
    fn entry(self, img: &[u8], i: usize) -> Entry
        requires asked { asks self i }
        requires within { reach self i ≤ length img.now }
        ensures { result ≡ told self img.now i };
}

// The runs that are listed at the image's front, from the one of this number on, as leaf entries.
#[derive(Clone, Copy)]
pub(crate) struct ListedRuns {
    pub(crate) from: usize,
}

#[tactic(auto, unfolding(crate::specs::Levels::run_entry, runs::specs::Listed::run_at))]
impl Entries for ListedRuns {
    ghost told = { λ x s i. run_entry s (x.from + i) };

    ghost reach = { λ x i. 16 * (x.from + i) + 16 };

    ghost asks = { λ x i. Unit };

    fn entry(self, img: &[u8], i: usize) -> Entry {
        let run = run_at(img, self.from + i);
        Entry {
            start: run.start,
            pair: run.pair,
            child: 0,
        }
    }
}

// The entries that lead to the pages from this number on. "Inner pairs are (0, 0)".
#[derive(Clone, Copy)]
pub(crate) struct PagesFrom {
    pub(crate) half: usize,
    pub(crate) first: u32,
}

impl Entries for PagesFrom {
    ghost told = { λ x s i. page_entry x.half s (x.first + i) };

    ghost reach = { λ x i. page_size x.half * (x.first + i) + page_size x.half };

    ghost asks = { λ x i. (1 ≤ x.half) × (x.half ≤ 12) × (x.first + i ≤ 4294967295) };

    fn entry(self, img: &[u8], i: usize) -> Entry {
        let child = self.first + i as u32;
        Entry {
            start: start_at(page_at(self.half, img, child), 0),
            pair: Pair::NONE,
            child,
        }
    }
}
