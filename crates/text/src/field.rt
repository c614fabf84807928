// The fields behind the sign: a value and two instants.
ghost use Rattle.std.specs.Prelude.{◌≡◌};
ghost use Rattle.text.specs.Reading.{instant_of, value_of};

use super::digits::number;

// Document 01: "s and e at most END", which is the greatest u32.
pub(crate) fn instant(ds: &[u8]) -> Option<u32>
    ensures { result ≡ instant_of ds.now }
{
    u32::try_from(number(ds)?).ok()
}

// Document 01: "v may have a minus". Ten digits and a minus fit an i64.
pub(crate) fn value(v: &[u8]) -> Option<i64>
    ensures { result ≡ value_of v.now }
{
    match v.strip_prefix(b"-") {
        Some(digits) => Some(-(number(digits)? as i64)),
        None => Some(number(v)? as i64),
    }
}
