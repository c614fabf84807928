// Instants, spans, values, kinds and windows. Document 01, "Time and value".
ghost use Rattle.std.specs.Prelude.{◌≡◌};
ghost use Rattle.rule.specs.Time.{value_ok, kind_ok, window_ok, effect_end, overlaps};

use crate::limits::{LEAST, MOST_VALUE, MOST_WINDOW, TOTALS};

// Whether a number is a value.
pub fn value_ok(v: i64) -> bool
    ensures { result ≡ value_ok v }
{
    v.unsigned_abs() <= MOST_VALUE
}

// Whether a number names a kind.
pub fn kind_ok(kind: u32) -> bool
    ensures { result ≡ kind_ok kind }
{
    (TOTALS..=LEAST).contains(&kind)
}

// Whether a number is a window's length.
pub fn window_ok(w: u32) -> bool
    ensures { result ≡ window_ok w }
{
    w <= MOST_WINDOW
}

// Where the effect of a booking up to e ends: END is the greatest u32, so the sum stops there.
pub fn effect_end(e: u32, w: u32) -> u32
    ensures { result ≡ effect_end e w }
{
    e.saturating_add(w)
}

// Whether the spans [a, b) and [lo, hi) have an instant in common.
pub fn overlaps(a: u32, b: u32, lo: u32, hi: u32) -> bool
    ensures { result ≡ overlaps a b lo hi }
{
    (lo < b) & (a < hi)
}
