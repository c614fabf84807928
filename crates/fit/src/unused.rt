// "unused bytes are FF": "24 bytes FF" before the arrays, and "places past the number are FF".
ghost use Rattle.std.specs.Prelude.{◌≡◌};
ghost use Rattle.page.specs.Layout.{unused_ok};
ghost use Rattle.fit.specs.Contexts.{Compared};

use fields::fill::{all_ff, words_ff};
use page::layout::{
    ENTRY_BYTES, GAP_BYTES, GAP_OFFSET, START_BYTES, capacity, entry_offset, start_offset,
};

// Whether every byte that a page of n entries doesn't use is FF.
pub(crate) fn unused_ok(half: usize, s: &[u8], n: usize) -> bool
    requires { Compared half s.now n }
    ensures { result ≡ unused_ok half s.now }
{
    let past = capacity(half) - n;
    words_ff::<u64>(s, GAP_OFFSET, GAP_BYTES / 8)
        & (all_ff(s, start_offset(n), START_BYTES * past)
            & words_ff::<u64>(s, entry_offset(half, n), ENTRY_BYTES / 8 * past))
}
