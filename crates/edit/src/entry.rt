// One entry of a decoded page: read, and put in the place of another.
ghost use Rattle.std.specs.Prelude.{◌≡◌, [], ◌∷◌, ◌<◌, ◌≤◌};
ghost use Rattle.page.specs.Entries.{at};
ghost use Rattle.lists.specs.Lists.{splice};
ghost use Rattle.page.specs.Decoded.{entry_list};
ghost use Rattle.edit.specs.Contents.{HasEntries};

use page::{Entry, Page};

pub fn entry_at(p: Page, i: usize) -> Entry
    requires { (i < p.len) × (p.len ≤ 25) }
    ensures { result ≡ at (entry_list p) i }
{
    p.entry(i)
}

// e in the place of the i-th entry.
pub fn replace(p: Page, i: usize, e: Entry) -> Page
    requires { (i < p.len) × (p.len ≤ 25) }
    ensures { HasEntries p.level (splice i (e ∷ []) (entry_list p)) result }
{
    let mut r = p;
    r.set_entry(i, e);
    r
}
