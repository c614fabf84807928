// The numbers of a tree page or a free page, read from its bytes one at a time.
ghost use Rattle.std.specs.Prelude.{◌≡◌, ◌+◌, ◌≤◌, ◌/◌, ◌%◌, ◌^◌, length};
ghost use Rattle.std.specs.Int.{w32, w64};
ghost use Rattle.std.proofs.Common.{to_z};
ghost use Rattle.page.specs.Layout.{HasSlot, start_offset, level_of, entry_count, next_of};
ghost use Rattle.page.specs.Layout.{start_at, pair_at, child_at, entry_at};

use super::Entry;
use super::layout::{
    CHILD_IN_ENTRY, COUNT_IN_ENTRY, ENTRY_COUNT_OFFSET, LEVEL_OFFSET, NEXT_OFFSET, entry_offset,
    start_offset,
};
use fields::field::Field;
use rule::Pair;

// The level of a tree page, or the mark of a free page.
pub fn level_of(s: &[u8]) -> u32
    requires { 8 ≤ length s.now }
    ensures { result ≡ level_of s.now }
{
    u32::read_at(s, LEVEL_OFFSET)
}

// The count of entries that a tree page says it has: not yet compared with its capacity.
pub fn entry_count(s: &[u8]) -> u32
    requires { 8 ≤ length s.now }
    ensures { result ≡ entry_count s.now }
{
    u32::read_at(s, ENTRY_COUNT_OFFSET)
}

// The page behind a free page in the chain, 0 at its end.
pub fn next_of(s: &[u8]) -> u32
    requires { 8 ≤ length s.now }
    ensures { result ≡ next_of s.now }
{
    u32::read_at(s, NEXT_OFFSET)
}

// The start of the i-th entry.
pub fn start_at(s: &[u8], i: usize) -> u32
    requires { start_offset i + 4 ≤ length s.now }
    ensures { result ≡ start_at s.now i }
{
    u32::read_at(s, start_offset(i))
}

// The sum and the count of the i-th entry.
pub fn pair_at(half: usize, s: &[u8], i: usize) -> Pair
    requires { HasSlot half s.now i }
    ensures { result ≡ pair_at half s.now i }
{
    let o = entry_offset(half, i);
    Pair {
        sum: i64::read_at(s, o),
        count: i32::read_at(s, o + COUNT_IN_ENTRY),
    }
}

// The child page of the i-th entry, 0 in a leaf.
pub fn child_at(half: usize, s: &[u8], i: usize) -> u32
    requires { HasSlot half s.now i }
    ensures { result ≡ child_at half s.now i }
{
    u32::read_at(s, entry_offset(half, i) + CHILD_IN_ENTRY)
}

// The 64 bits of the sum of the i-th entry: for a test that goes by bits, which needs no sign.
pub fn sum_bits_at(half: usize, s: &[u8], i: usize) -> u64
    requires { HasSlot half s.now i }
    ensures { to_z w64 result ≡ (pair_at half s.now i).sum }
{
    u64::read_at(s, entry_offset(half, i))
}

// The 32 bits of the count of the i-th entry, and above them its child: one load for both.
pub fn count_and_child_at(half: usize, s: &[u8], i: usize) -> u64
    requires { HasSlot half s.now i }
    ensures { (to_z w32 (result % 2 ^ 32) ≡ (pair_at half s.now i).count) × (result / 2 ^ 32 ≡ child_at half s.now i) }
{
    u64::read_at(s, entry_offset(half, i) + COUNT_IN_ENTRY)
}

// The i-th entry.
pub fn entry_at(half: usize, s: &[u8], i: usize) -> Entry
    requires { HasSlot half s.now i }
    ensures { result ≡ entry_at half s.now i }
{
    Entry {
        start: start_at(s, i),
        pair: pair_at(half, s, i),
        child: child_at(half, s, i),
    }
}
