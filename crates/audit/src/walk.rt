// "Audit goes by page and entry in turn: a page is checked by its entries, and an inner entry by its page below."
ghost use Rattle.std.specs.Prelude.{◌≡◌, true, ◌≤◌};
ghost use Rattle.page.specs.Fit.{page_fit, root_context};
ghost use Rattle.image.specs.Images.{page_at};
ghost use Rattle.access.specs.Access.{OpenImage};
ghost use Rattle.audit.specs.Walks.{Standing, Inner, fit_below, page_count, page_count_below};

use access::pages::page_at;
use fit::contexts::{context_below, root_context};
use fit::tree_page::page_fit;
use page::at::{child_at, entry_count};
use page::{Head, PageContext};

// Whether the page below the i-th entry of a fit inner page is fit. It is checked here, where its context was made: read back by a
// call, the context would have to wait for its stores.
fn leaf_fit(half: usize, img: &[u8], h: Head, at: PageContext, p: u32, i: usize) -> bool
    requires standing { Standing half img.now h at p }
    requires inner { Inner half img.now h at p i }
    ensures { result ≡ fit_below half h img.now at p i }
{
    let s = page_at(half, img, p);
    let below = context_below(half, s, at, i);
    page_fit(half, page_at(half, img, child_at(half, s, i)), h, below)
}

// How many tree pages there are from a fit page p of level 1 on down, if all are fit: it ends at the first that is not. Most pages are leaves, so
// they have a loop of their own, which counts nothing and makes no call but the check's.
fn audit_leaves(half: usize, img: &[u8], h: Head, at: PageContext, p: u32) -> Option<u32>
    requires standing { Standing half img.now h at p }
    requires fit { (page_fit half h at (page_at half img.now p) ≡ true) × (at.level ≡ 1) }
    ensures { result ≡ page_count half h img.now at p }
{
    let n = entry_count(page_at(half, img, p));
    (0..n as usize)
        .all(|i| leaf_fit(half, img, h, at, p, i))
        .then_some(1 + n)
}

// The same at any level. A page is fit in no two contexts, so none is found fit twice; only the last look, at an unfit page, may be
// at one that was met before. No function of a closure serves both loops: here the answers are added, and the closure would stand in the
// cycle of calls, where its clauses had to say all that audit_entry's say.
#[cycle(audit_entry_audit_page)]
fn audit_page(half: usize, img: &[u8], h: Head, at: PageContext, p: u32) -> Option<u32>
    requires standing { Standing half img.now h at p }
    requires fit { page_fit half h at (page_at half img.now p) ≡ true }
    ensures { result ≡ page_count half h img.now at p }
{
    // A leaf has no page below.
    if at.level == 0 {
        return Some(1);
    }
    if at.level == 1 {
        return audit_leaves(half, img, h, at, p);
    }
    let n = entry_count(page_at(half, img, p)) as usize;
    let mut pages = 1;
    for i in 0..n {
        pages += audit_entry(half, img, h, at, p, i)?;
    }
    Some(pages)
}

// The same from the page below the i-th entry of a fit inner page: the level falls.
#[cycle(audit_entry_audit_page)]
fn audit_entry(half: usize, img: &[u8], h: Head, at: PageContext, p: u32, i: usize) -> Option<u32>
    requires standing { Standing half img.now h at p }
    requires inner { Inner half img.now h at p i }
    ensures { result ≡ page_count_below half h img.now at p i }
{
    let s = page_at(half, img, p);
    let below = context_below(half, s, at, i);
    let child = child_at(half, s, i);
    if !page_fit(half, page_at(half, img, child), h, below) {
        return None;
    }
    audit_page(half, img, h, below, child)
}

// The same from the root on.
pub(crate) fn audit_root(half: usize, img: &[u8], h: Head) -> Option<u32>
    requires { (1 ≤ half) × (half ≤ 12) × OpenImage half img.now h }
    ensures { result ≡ page_count half h img.now (root_context h) h.root }
{
    let at = root_context(h);
    if !page_fit(half, page_at(half, img, h.root), h, at) {
        return None;
    }
    audit_page(half, img, h, at, h.root)
}
