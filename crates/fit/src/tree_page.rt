// Is a page fit in its context?
ghost use Rattle.std.specs.Prelude.{◌≡◌, ◌≤◌, length};
ghost use Rattle.page.specs.Layout.{page_size};
ghost use Rattle.page.specs.Fit.{page_fit};
ghost use Rattle.fit.specs.Contexts.{Bounded};

use super::entries::entries_ok;
use super::entry_count::entry_count_ok;
use super::starts::starts_ok;
use super::unused::unused_ok;
use page::at::{entry_count, level_of};
use page::{Head, PageContext};

// Whether a page is fit in its context, for any bytes of a page: exits stand only between the parts of the check.
pub fn page_fit(half: usize, s: &[u8], h: Head, at: PageContext) -> bool
    requires bytes { (1 ≤ half) × (length s.now ≡ page_size half) }
    requires bounded { Bounded at }
    ensures { result ≡ page_fit half h at s.now }
{
    // "A page is fit at its place if its level is the one expected there"
    if level_of(s) != at.level {
        return false;
    }
    // The page may be worn: the count of entries is compared with the capacity before anything uses it.
    if !entry_count_ok(half, s, at) {
        return false;
    }
    let n = entry_count(s) as usize;
    if !starts_ok(s, n, at) {
        return false;
    }
    if !unused_ok(half, s, n) {
        return false;
    }
    entries_ok(half, s, n, h, at)
}
