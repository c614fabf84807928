// "An instant's answer combines the pairs on its way from root to leaf." "the instant answer gains the start and end of its leaf entry."
ghost use Rattle.std.specs.Prelude.{◌≡◌, ◌≤◌};
ghost use Rattle.calls.specs.Numbers.{number_of};
ghost use Rattle.calls.specs.Calls.{no_instant, instant};
ghost use Rattle.calls.specs.Index.{index_instant};
ghost use Rattle.luwhenoka.specs.Answers.{instant_of, instant_answer};
ghost use Rattle.luwhenoka.specs.Promises.{Answers};

use crate::InstantAnswer;
use crate::judge::judge;
use access::heads::open_head;
use access::lengths::length_fits;
use calls::refusals::{ACCEPTED, Refusal};
use lookup::look_up::look_up;
use lookup::{Holding, LookupAnswer};
use rule::limits::END;

// "A refusal returns its number and zeros (instant: the pages read too)." "Refusals give zeros for both new numbers."
fn refused(refusal: Refusal, pages: u32) -> InstantAnswer
    ensures { result ≡ instant_answer (no_instant (number_of refusal) pages) }
{
    InstantAnswer {
        status: refusal.into(),
        pages,
        ..InstantAnswer::default()
    }
}

fn accepted(found: Holding, pages: u32) -> InstantAnswer
    ensures { result ≡ instant_answer
        (record { status = 0; pair = found.pair; start = found.start; end = found.end; pages = pages }) }
{
    InstantAnswer {
        status: ACCEPTED,
        pages,
        sum: found.pair.sum,
        count: found.pair.count,
        start: found.start,
        end: found.end,
    }
}

impl From<Result<LookupAnswer, Refusal>> for InstantAnswer {
    ghost from_gives = { λ looked answer. answer ≡ instant_answer (instant_of looked) };

    fn from(looked: Result<LookupAnswer, Refusal>) -> InstantAnswer {
        match looked {
            Ok(
                LookupAnswer {
                    found: Some(found),
                    pages,
                },
            ) => accepted(found, pages),
            Ok(LookupAnswer { found: None, pages }) => refused(Refusal::Unsound, pages),
            Err(refusal) => refused(refusal, 0),
        }
    }
}

// The pair at t, from when until when it holds, and how many tree pages were read, by half the capacity. The order is 16, 12, 21; a page
// that is unfit is 21 too, with the pages read.
fn instant(half: usize, img: &[u8], t: u32) -> Result<LookupAnswer, Refusal>
    requires { (2 ≤ half) × (half ≤ 12) }
    ensures { instant_of result ≡ instant half t img.now }
{
    if !length_fits(half, img) {
        return Err(Refusal::ImageLength);
    }
    if t == END {
        return Err(Refusal::InstantEnd);
    }
    let h = open_head(half, img).ok_or(Refusal::Unsound)?;
    Ok(look_up(half, img, h, t))
}

// The same by the capacity that the image names.
pub(crate) fn index_instant(img: &[u8], t: u32) -> Result<LookupAnswer, Refusal>
    ensures { instant_of result ≡ index_instant t img.now }
{
    instant(judge(img)?, img, t)
}

// What C gets of it.
pub fn luw_instant(img: &[u8], t: u32) -> InstantAnswer
    ensures { Answers t img.now result }
{
    index_instant(img, t).into()
}
