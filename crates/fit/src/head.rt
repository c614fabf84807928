// Is the head fit?
ghost use Rattle.std.specs.Prelude.{◌≡◌, ◌≤◌, length};
ghost use Rattle.page.specs.Layout.{page_size};
ghost use Rattle.page.specs.Fit.{ranges_ok, field_ok, head_fit};

use fields::fill::all_ff;
use page::Head;
use page::capacities::capacity_named;
use page::heads::read_head;
use page::layout::{HEAD_BYTES, LEAST_MARK, MOST_HEIGHT, capacity, page_size};
use rule::limits::MOST_CHANGES;
use rule::time::{kind_ok, window_ok};

// "n matches the length, changes ≤ 1,000,000,000, the root lies in 1 to n−1, the chain's first page is 0 or there, the other
// fields keep the ranges named"; the chain's length has none of its own.
fn ranges_ok(h: Head, pages: u32) -> bool
    ensures { result ≡ ranges_ok pages h }
{
    (h.pages == pages)
        & (1..=MOST_HEIGHT).contains(&h.height)
        & (1..pages).contains(&h.root)
        & (h.free < pages)
        & (LEAST_MARK..=pages).contains(&h.mark)
        & kind_ok(h.kind)
        & window_ok(h.window)
        & (h.changes <= MOST_CHANGES)
}

// Whether the capacity's field names the capacity by which the page is read, which is one.
fn field_ok(half: usize, field: u32) -> bool
    requires { (2 ≤ half) × (half ≤ 12) }
    ensures { result ≡ field_ok half field }
{
    capacity_named(field) as usize == capacity(half)
}

// Whether page 0 is the fit head of an image of so many pages, for any bytes of a page: ranges, "and its rest is FF".
pub fn head_fit(half: usize, s: &[u8], pages: u32) -> bool
    requires { (2 ≤ half) × (half ≤ 12) × (length s.now ≡ page_size half) }
    ensures { result ≡ head_fit half pages s.now }
{
    let h = read_head(s);
    let rest = page_size(half) - HEAD_BYTES;
    ranges_ok(h, pages) & (field_ok(half, h.capacity) & all_ff(s, HEAD_BYTES, rest))
}
