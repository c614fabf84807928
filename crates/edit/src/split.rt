// The two parts of a page that is cut in front of its k-th entry.
ghost use Rattle.std.specs.Prelude.{◌≤◌, take, drop};
ghost use Rattle.page.specs.Decoded.{entry_list};
ghost use Rattle.edit.specs.Contents.{HasEntries};

use crate::copy::move_entries;
use page::Page;

// The first k entries: what stands past its length means nothing, so no slot is written.
pub fn first_of(p: Page, k: usize) -> Page
    requires { k ≤ p.len }
    ensures { HasEntries p.level (take k (entry_list p)) result }
{
    Page { len: k, ..p }
}

// The entries from the k-th on.
pub fn rest_of(p: Page, k: usize) -> Page
    requires { (k ≤ p.len) × (p.len ≤ 25) }
    ensures { HasEntries p.level (drop k (entry_list p)) result }
{
    move_entries(p, k, 0)
}
