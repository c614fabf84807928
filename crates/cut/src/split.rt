// A page gains an entry, and splits if it is full: the page under an entry e of its parent.
ghost use Rattle.page.specs.Entries.{inserted};
ghost use Rattle.steps.specs.Supply.{entries};
ghost use Rattle.steps.specs.Cut.{split, split_if_full};
ghost use Rattle.edit.specs.Contents.{HasEntries};
ghost use Rattle.store.specs.Encoding.{PreLevel, PostLevel};
ghost use Rattle.cut.specs.Answers.{inserted_after, CutAs};
ghost use Rattle.cut.specs.Cuttable.{HasPlace, Splittable, Insertable};

use crate::SplitOff;
use edit::entry::entry_at;
use edit::insert::insert;
use edit::split::{first_of, rest_of};
use page::layout::capacity;
use page::{Entry, Page};
use store::edits::insert_entry;
use store::entries::{entry_count_in, entry_of};
use store::pages::{load, save};
use store::supply::take;

// Page p with e as its i-th entry.
fn page_with(half: usize, img: &[u8], p: u32, i: usize, e: Entry) -> Page
    requires { PreLevel half img.now (λ l. HasPlace l p i) }
    ensures { PostLevel half img.now (λ l. HasPlace l p i) (λ l X. HasEntries l (inserted i e (entries X p)) result) }
{
    insert(load(half, img, p), i, e)
}

// "a split keeps K/2 and moves K/2 + 1". The page under e is full, and new is the i-th of one more than it holds.
fn split(half: usize, img: &mut [u8], e: Entry, i: usize, new: Entry) -> Option<SplitOff>
    requires { PreLevel half img.old (λ l. Splittable half l e.child i) }
    ensures { PostLevel half img.old (λ l. Splittable half l e.child i)
        (λ l X. CutAs half e (split half l e (inserted i new (entries X e.child)) X) result img.new) }
{
    let page = page_with(half, img, e.child, i, new);
    let q = take(half, img);
    let left = first_of(page, half);
    save(half, img, e.child, left);
    let right = rest_of(page, half);
    save(half, img, q, right);
    Some(SplitOff {
        start: entry_at(right, 0).start,
        page: q,
    })
}

// The i-th entry of the page under e becomes two with the same pair: behind it stands what was split off it.
pub(crate) fn insert_after(
    half: usize,
    img: &mut [u8],
    e: Entry,
    i: usize,
    right: SplitOff,
) -> Option<SplitOff>
    requires { PreLevel half img.old (λ l. Insertable half l e.child i) }
    ensures { PostLevel half img.old (λ l. Insertable half l e.child i)
        (λ l X. CutAs half e (split_if_full half l e (inserted_after i right (entries X e.child)) X) result img.new) }
{
    let old = entry_of(half, img, e.child, i);
    let new = Entry {
        start: right.start,
        child: right.page,
        ..old
    };
    if entry_count_in(half, img, e.child) < capacity(half) {
        insert_entry(half, img, e.child, i + 1, new);
        None
    } else {
        split(half, img, e, i + 1, new)
    }
}
