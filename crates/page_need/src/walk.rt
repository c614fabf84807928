// The paths of the two cuts: the same pages from the root down, until they part.
ghost use Rattle.std.specs.Prelude.{◌≡◌, ◌<◌};
ghost use Rattle.image.specs.Images.{image_of};
ghost use Rattle.page_need.specs.Needs.{one_cut, parted_cuts, both_cuts};
ghost use Rattle.page_need.specs.Leads.{Leads};

use super::Need;
use super::parts::{leaf_need, page_need};
use page::Entry;
use store::Found;
use store::entries::find_entry;

// What the cut at t asks for from an entry down that only it meets, and that ends at hi.
pub(crate) fn one_cut(half: usize, img: &[u8], t: u32, level: u32, e: Entry, hi: u32) -> Need
    requires { Leads half img.now t hi level e }
    ensures { result ≡ one_cut half t level e (image_of half img.now) }
{
    if level == 0 {
        return leaf_need(t, e);
    }
    let found = find_entry(half, img, e.child, hi, t);
    page_need(
        half,
        found.count,
        one_cut(half, img, t, level - 1, found.entry, found.end),
    )
}

// What the cut at s asks for from x down and the cut at t from y down, entries that lead to pages of their own.
fn parted_cuts(half: usize, img: &[u8], s: u32, t: u32, level: u32, x: Found, y: Found) -> Need
    requires leads { Leads half img.now s x.end level x.entry }
    requires leads_later { Leads half img.now t y.end level y.entry }
    ensures { result ≡ parted_cuts half s t level x.entry y.entry (image_of half img.now) }
{
    one_cut(half, img, s, level, x.entry, x.end) + one_cut(half, img, t, level, y.entry, y.end)
}

// What the cuts at s and at t ask for from an entry down that both meet, and that ends at hi: they go on to the same entry of its page,
// or part there. The entry that has s has t too where it ends behind t.
pub(crate) fn both_cuts(
    half: usize,
    img: &[u8],
    s: u32,
    t: u32,
    level: u32,
    e: Entry,
    hi: u32,
) -> Need
    requires leads { Leads half img.now s hi level e }
    requires order { (s < t) × (t < hi) }
    ensures { result ≡ both_cuts half s t level e (image_of half img.now) }
{
    if level == 0 {
        return leaf_need(s, e) + leaf_need(t, e);
    }
    let first = find_entry(half, img, e.child, hi, s);
    if t < first.end {
        return page_need(
            half,
            first.count,
            both_cuts(half, img, s, t, level - 1, first.entry, first.end),
        );
    }
    let second = find_entry(half, img, e.child, hi, t);
    page_need(
        half,
        first.count,
        parted_cuts(half, img, s, t, level - 1, first, second),
    )
}
