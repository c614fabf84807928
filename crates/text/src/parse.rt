// A line: document 01's "lines `+ v s e` or `- v s e`", "fields one space apart".
ghost use Rattle.std.specs.Prelude.{◌≡◌, MatchOption};
ghost use Rattle.calls.specs.Program.{unread, cut_at, line_from, signed_line};
ghost use Rattle.text.specs.Reading.{line_of, sign_of};

use super::field::{instant, value};
use calls::bookings::{Booking, Side};

// The side of a sign, `+` or `-`, alone.
fn side(sign: &[u8]) -> Option<Side>
    ensures { result ≡ sign_of sign.now }
{
    match sign {
        [b'+'] => Some(Side::Entering),
        [b'-'] => Some(Side::Withdrawing),
        _ => None,
    }
}

// The four fields of a line: exactly three spaces part them.
fn fields(line: &[u8]) -> Option<(&[u8], &[u8], &[u8], &[u8])>
    ensures { MatchOption result (line_from (cut_at 32 line.now) ≡ unread)
        (λ f. line_from (cut_at 32 line.now) ≡ signed_line f.0.now f.1.now f.2.now f.3.now) }
{
    let mut parts = line.split(|b| *b == b' ');
    let sign = parts.next()?;
    let v = parts.next()?;
    let s = parts.next()?;
    let e = parts.next()?;
    match parts.next() {
        None => Some((sign, v, s, e)),
        Some(_) => None,
    }
}

// A line of any length: the booking that it is, or that it is "any other form".
pub(crate) fn parse(line: &[u8]) -> Option<Booking>
    ensures { line_of result ≡ line_from (cut_at 32 line.now) }
{
    let (sign, v, s, e) = fields(line)?;
    Some(Booking {
        side: side(sign)?,
        value: value(v)?,
        start: instant(s)?,
        end: instant(e)?,
    })
}
