// A number's digits: document 01's "1 to 10 digits".
ghost use Rattle.std.specs.Prelude.{◌≡◌, IfSome, ◌<◌, ◌^◌};
ghost use Rattle.text.specs.Reading.{number_of};

const MOST_DIGITS: usize = 10;

// The number that a field is, whose length is tested before its bytes are looked at: ten digits can't wrap a u64.
pub(crate) fn number(ds: &[u8]) -> Option<u64>
    ensures value { result ≡ number_of ds.now }
    ensures small { IfSome result (λ n. n < 10 ^ 10) }
{
    if ds.is_empty() || ds.len() > MOST_DIGITS {
        return None;
    }
    let mut n: u64 = 0;
    for d in ds {
        if !d.is_ascii_digit() {
            return None;
        }
        n = 10 * n + u64::from(*d - b'0');
    }
    Some(n)
}
