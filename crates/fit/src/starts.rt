// "starts rise strictly, the first is the parent entry's start (root: 0), the last lies below that entry's end (root: END)"
ghost use Rattle.std.specs.Prelude.{◌≡◌, suc, ◌-◌, ◌≤◌, length, nat_lt};
ghost use Rattle.fields.specs.Bytes.{every};
ghost use Rattle.page.specs.Layout.{start_offset, entry_count, start_at};
ghost use Rattle.page.specs.Fit.{starts_ok};

use page::PageContext;
use page::at::start_at;

// Whether the starts of a page of n entries rise strictly: no exit in the loop, so that many are tested at once.
fn rising(s: &[u8], n: usize) -> bool
    requires { (1 ≤ n) × (start_offset n ≤ length s.now) }
    ensures { result ≡ every (n - 1) (λ i. nat_lt (start_at s.now i) (start_at s.now (suc i))) }
{
    let mut ok = true;
    for i in 0..n - 1 {
        ok &= start_at(s, i) < start_at(s, i + 1);
    }
    ok
}

// Whether the starts of a page of n entries are those of its context.
pub(crate) fn starts_ok(s: &[u8], n: usize, at: PageContext) -> bool
    requires { (n ≡ entry_count s.now) × (1 ≤ n) × (start_offset n ≤ length s.now) }
    ensures { result ≡ starts_ok at s.now }
{
    (start_at(s, 0) == at.lo) & (rising(s, n) & (start_at(s, n - 1) < at.hi))
}
