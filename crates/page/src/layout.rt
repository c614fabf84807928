// Where the numbers of a page stand. Document 01, "The page"; docs/FORMAT.md.
// All that follows from the capacity of a page is derived here: half of it is the one number that differs between chips.
ghost use Rattle.std.specs.Prelude.{◌≡◌, ◌<◌, ◌^◌};
ghost use Rattle.page.specs.Layout.{capacity, start_offset, entry_offset, page_size};

// Half of the greatest capacity: "an even number from 4 to 24"
pub const MOST_HALF: usize = 12;

// Entries of a decoded page, of whatever capacity: one more than a written page has, for the entry that makes it split.
pub const SLOTS: usize = 2 * MOST_HALF + 1;

// A tree page: level and count of entries, unused bytes, starts, entries.
pub const LEVEL_OFFSET: usize = 0;

pub const ENTRY_COUNT_OFFSET: usize = 4;

pub const GAP_OFFSET: usize = 8;

pub const STARTS_OFFSET: usize = 32;

pub const START_BYTES: usize = 4;

pub const ENTRY_BYTES: usize = 16;

// The unused bytes before the starts.
pub const GAP_BYTES: usize = STARTS_OFFSET - GAP_OFFSET;

// Within an entry: sum, count, child.
pub const COUNT_IN_ENTRY: usize = 8;

pub const CHILD_IN_ENTRY: usize = 12;

// A free page: this level, and the page behind it in the chain.
pub const FREE_LEVEL: u32 = 255;

pub const NEXT_OFFSET: usize = 4;

// The head: ten numbers, the rest unused.
pub const HEAD_PAGES: usize = 0;

pub const HEAD_HEIGHT: usize = 4;

pub const HEAD_ROOT: usize = 8;

pub const HEAD_FREE: usize = 12;

pub const HEAD_CHAIN: usize = 16;

pub const HEAD_MARK: usize = 20;

pub const HEAD_KIND: usize = 24;

pub const HEAD_WINDOW: usize = 28;

pub const HEAD_CHANGES: usize = 32;

pub const HEAD_CAPACITY: usize = 36;

pub const HEAD_BYTES: usize = 40;

// "n from 2 to 1,024"
pub const FEWEST_PAGES: usize = 2;

pub const MOST_PAGES: usize = 1024;

// "the head's range becomes 1 to 10 at every K", "high mark (lowest page never used, 2 to n)"
pub const MOST_HEIGHT: u32 = 10;

pub const LEAST_MARK: u32 = 2;

// At document 01's capacity.
pub const HALF: usize = MOST_HALF;

pub const CAPACITY: usize = 2 * HALF;

pub const ENTRIES_OFFSET: usize = STARTS_OFFSET + START_BYTES * CAPACITY;

pub const PAGE_BYTES: usize = ENTRIES_OFFSET + ENTRY_BYTES * CAPACITY;

// How many entries a page has at most.
pub fn capacity(half: usize) -> usize
    requires { capacity half < 2 ^ 64 }
    ensures { result ≡ capacity half }
{
    2 * half
}

// Where the start of the i-th entry stands.
pub fn start_offset(i: usize) -> usize
    requires { start_offset i < 2 ^ 64 }
    ensures { result ≡ start_offset i }
{
    STARTS_OFFSET + START_BYTES * i
}

// Where the sum, the count and the child of the i-th entry stand: behind all starts.
pub fn entry_offset(half: usize, i: usize) -> usize
    requires { entry_offset half i < 2 ^ 64 }
    ensures { result ≡ entry_offset half i }
{
    STARTS_OFFSET + START_BYTES * capacity(half) + ENTRY_BYTES * i
}

// The bytes of a page.
pub fn page_size(half: usize) -> usize
    requires { page_size half < 2 ^ 64 }
    ensures { result ≡ page_size half }
{
    STARTS_OFFSET + (START_BYTES + ENTRY_BYTES) * capacity(half)
}
