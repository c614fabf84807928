// An entry more.
ghost use Rattle.std.specs.Prelude.{◌≤◌};
ghost use Rattle.page.specs.Entries.{inserted};
ghost use Rattle.page.specs.Decoded.{entry_list};
ghost use Rattle.edit.specs.Contents.{HasEntries};

use crate::copy::move_entries;
use crate::entry::replace;
use page::{Entry, Page};

// e as the i-th entry: those from there on first move up by a slot.
pub fn insert(p: Page, i: usize, e: Entry) -> Page
    requires { (i ≤ p.len) × (p.len ≤ 24) }
    ensures { HasEntries p.level (inserted i e (entry_list p)) result }
{
    let opened = move_entries(p, i, i + 1);
    replace(opened, i, e)
}
