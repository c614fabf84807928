// The chain of free pages.
ghost use Rattle.std.specs.Prelude.{◌≡◌, ◌*◌, length};
ghost use Rattle.page.specs.Layout.{page_size, free_ok};
ghost use Rattle.soundness.specs.Counting.{chain_ends};
ghost use Rattle.audit.specs.Walks.{leads_to_free};

use access::pages::page_at;
use fields::fill::words_ff;
use page::at::{level_of, next_of};
use page::layout::{FREE_LEVEL, GAP_OFFSET, page_size};

// "Free page: level field 255, next free page (0 ends the chain), rest FF."
fn free_ok(half: usize, s: &[u8]) -> bool
    requires { length s.now ≡ page_size half }
    ensures { result ≡ free_ok half s.now }
{
    (level_of(s) == FREE_LEVEL) & words_ff::<u64>(s, GAP_OFFSET, (page_size(half) - GAP_OFFSET) / 8)
}

// Whether a page number leads to a free page of the image: compared with n before it is used.
fn leads_to_free(half: usize, img: &[u8], n: u32, p: u32) -> bool
    requires { length img.now ≡ page_size half * n }
    ensures { result ≡ leads_to_free half img.now n p }
{
    (1..n).contains(&p) && free_ok(half, page_at(half, img, p))
}

// Whether the chain from its first page on ends after k free pages: one that returns to itself never ends.
pub(crate) fn chain_ends(half: usize, img: &[u8], n: u32, k: u32, first: u32) -> bool
    requires { length img.now ≡ page_size half * n }
    ensures { result ≡ chain_ends half img.now k first }
{
    let mut p = first;
    for _ in 0..k {
        if !leads_to_free(half, img, n, p) {
            return false;
        }
        p = next_of(page_at(half, img, p));
    }
    p == 0
}
