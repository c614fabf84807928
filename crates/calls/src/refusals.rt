// Why a call is turned back, and the numbers that it returns. Document 01, "Turned back by the input" and "Turned back by the state".
// "The order is 16, 17, 11 or 12, 13, 14, 21, 22, 23, 24, and 15 last." Document 02, (xi): a bad capacity ahead of all, 14 at format, else 21.
ghost use Rattle.std.specs.Prelude.{◌≡◌};
ghost use Rattle.calls.specs.Numbers.{number_of, status_of};

// The status of a call that is accepted.
pub const ACCEPTED: u32 = 0;

// A row of the two tables: by the input up to 17, by the state from 21 on. As a number it is document 01's.
#[derive(Clone, Copy, Debug, PartialEq, Eq)]
pub enum Refusal {
    SpanEmpty = 11,
    InstantEnd = 12,
    ValueRange = 13,
    FormatRange = 14,
    OutputShort = 15,
    ImageLength = 16,
    ScratchShort = 17,
    Unsound = 21,
    WithdrawalKind = 22,
    ChangesFull = 23,
    PagesLacking = 24,
}

impl From<Refusal> for u32 {
    ghost from_gives = { λ refusal number. number ≡ number_of refusal };

    fn from(refusal: Refusal) -> u32 {
        refusal as u32
    }
}

// What C gets of a call's answer: document 01's number, 0 for an accepted call.
pub fn status(answer: Result<(), Refusal>) -> u32
    ensures { result ≡ status_of answer }
{
    match answer {
        Ok(()) => ACCEPTED,
        Err(refusal) => refusal.into(),
    }
}
