// The one loop that moves entries: room for an entry and a half split off are both made of it.
ghost use Rattle.std.specs.Prelude.{◌+◌, ◌≤◌, ◌++◌, drop};
ghost use Rattle.page.specs.Decoded.{entry_list};
ghost use Rattle.edit.specs.Contents.{HasEntries, first_slots};

use page::Page;

// The first slots of p, `to` of them, and behind those its entries from the one at `from` on.
// p is read as it was, so none is overwritten before it is moved.
pub(crate) fn move_entries(p: Page, from: usize, to: usize) -> Page
    requires { (from ≤ p.len) × (p.len ≤ 25) × (to + p.len ≤ from + 25) }
    ensures { HasEntries p.level (first_slots to p ++ drop from (entry_list p)) result }
{
    let mut r = p;
    for i in from..p.len {
        r.set_entry(to + (i - from), p.entry(i));
    }
    r.len = to + (p.len - from);
    r
}
