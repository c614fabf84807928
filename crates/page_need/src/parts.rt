// What one page or one leaf entry has a part in.
ghost use Rattle.std.specs.Prelude.{◌≡◌, ◌≤◌};
ghost use Rattle.page.specs.Layout.{capacity};
ghost use Rattle.page_need.specs.Needs.{leaf_need, page_need};
ghost use Rattle.page_need.specs.Leads.{Small};

use super::Need;
use page::Entry;
use page::layout::capacity;

// "the leaf entry that has t becomes two"; nothing if t starts it.
pub(crate) fn leaf_need(t: u32, e: Entry) -> Need
    ensures { result ≡ leaf_need t e }
{
    Need {
        adds: u32::from(e.start != t),
        pages: 0,
    }
}

// "25 entries split: .. a taken page gets 13, the parent gains an entry", K + 1 at other capacities: a page of n entries that gains some.
pub(crate) fn page_need(half: usize, n: usize, below: Need) -> Need
    requires { (half ≤ 12) × (n ≤ capacity half) × Small below }
    ensures { result ≡ page_need half n below }
{
    if n + below.adds as usize <= capacity(half) {
        return Need { adds: 0, ..below };
    }
    Need {
        adds: 1,
        pages: below.pages + 1,
    }
}
