// Edits of a tree page in place: what does not change is neither read nor written.
ghost use Rattle.std.specs.Prelude.{◌≡◌, [], ◌≤◌, ◌<◌, length};
ghost use Rattle.lists.specs.Lists.{splice};
ghost use Rattle.page.specs.Entries.{inserted};
ghost use Rattle.page.specs.Layout.{HasSlot, capacity, page_size, entry_count, with_entry, without_entry};
ghost use Rattle.page.specs.Slots.{Edits};

use super::Entry;
use super::at::{entry_at, entry_count};
use super::layout::{
    CHILD_IN_ENTRY, COUNT_IN_ENTRY, ENTRY_BYTES, ENTRY_COUNT_OFFSET, START_BYTES, entry_offset,
    start_offset,
};
use fields::field::Field;
use fields::fill::{UNUSED_BYTE, fill};

// Writes e at the i-th slot.
pub fn set_slot(half: usize, s: &mut [u8], i: usize, e: Entry)
    requires { HasSlot half s.old i }
    ensures { s.new ≡ with_entry half i e s.old }
{
    e.start.write_at(s, start_offset(i));
    let o = entry_offset(half, i);
    e.pair.sum.write_at(s, o);
    e.pair.count.write_at(s, o + COUNT_IN_ENTRY);
    e.child.write_at(s, o + CHILD_IN_ENTRY);
}

// The i-th slot is unused from now on.
fn clear_slot(half: usize, s: &mut [u8], i: usize)
    requires { HasSlot half s.old i }
    ensures { s.new ≡ without_entry half i s.old }
{
    fill(s, start_offset(i), START_BYTES, UNUSED_BYTE);
    fill(s, entry_offset(half, i), ENTRY_BYTES, UNUSED_BYTE);
}

// e becomes the i-th entry: those from there on move up by a slot, the last one first.
pub fn insert_slot(half: usize, s: &mut [u8], i: usize, e: Entry)
    requires { (half ≤ 12) × (length s.old ≡ page_size half) × (i ≤ entry_count s.old) × (entry_count s.old < capacity half) }
    ensures { Edits half s.old s.new (inserted i e) }
{
    let n = entry_count(s);
    (n + 1).write_at(s, ENTRY_COUNT_OFFSET);
    for j in (i..n as usize).rev() {
        set_slot(half, s, j + 1, entry_at(half, s, j));
    }
    set_slot(half, s, i, e);
}

// The i-th entry goes: those behind it move down by a slot, and the last slot is unused then. Not one loop with the one above: each goes
// in the direction in which no entry is overwritten before it has moved.
pub fn remove_slot(half: usize, s: &mut [u8], i: usize)
    requires { (half ≤ 12) × (length s.old ≡ page_size half) × (i < entry_count s.old) × (entry_count s.old ≤ capacity half) }
    ensures { Edits half s.old s.new (splice i []) }
{
    let n = entry_count(s) - 1;
    n.write_at(s, ENTRY_COUNT_OFFSET);
    let last = n as usize;
    for j in i..last {
        set_slot(half, s, j, entry_at(half, s, j + 1));
    }
    clear_slot(half, s, last);
}
