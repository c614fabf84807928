// An entry cut at an instant, by recursion on its level: the page below comes first.
ghost use Rattle.std.specs.Prelude.{◌≡◌};
ghost use Rattle.steps.specs.Cut.{cut_leaf_entry, cut_entry};
ghost use Rattle.store.specs.Encoding.{Pre, Post};
ghost use Rattle.cut.specs.Answers.{became, CutAs};
ghost use Rattle.cut.specs.Cuttable.{EntryCuttable};

use crate::SplitOff;
use crate::split::insert_after;
use page::Entry;
use store::entries::find_entry;

// "the leaf entry that has t becomes two with the same pair"; nothing if t starts it.
fn cut_leaf_entry(e: Entry, t: u32) -> Option<SplitOff>
    ensures { became e result ≡ cut_leaf_entry t e }
{
    if e.start == t {
        None
    } else {
        Some(SplitOff {
            start: t,
            page: e.child,
        })
    }
}

// "Lower pages take first": the page under e is written once the page below it is. Where that one was split, its entry becomes two.
// The page under e is read on the way down for one entry alone, and is still the same on the way up: so no level of the recursion
// holds a decoded page. The entry ends at hi, and so does the page: the search asks for it, and what is written doesn't depend on it.
pub(crate) fn cut_entry(
    half: usize,
    img: &mut [u8],
    level: u32,
    e: Entry,
    hi: u32,
    t: u32,
) -> Option<SplitOff>
    requires { Pre half img.old (EntryCuttable half level e t) }
    ensures { Post half img.old (EntryCuttable half level e t)
        (λ X. CutAs half e (cut_entry half t level e X) result img.new) }
{
    if level == 0 {
        return cut_leaf_entry(e, t);
    }
    let found = find_entry(half, img, e.child, hi, t);
    let right = cut_entry(half, img, level - 1, found.entry, found.end, t)?;
    insert_after(half, img, e, found.index, right)
}
