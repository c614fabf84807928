// "The average, kind 1 only, is in hundredths".
ghost use Rattle.std.specs.Prelude.{◌≡◌, ◌≤◌, length};
ghost use Rattle.fields.specs.Numbers.{u32_at};
ghost use Rattle.calls.specs.Index.{index_average};
ghost use Rattle.luwhenoka.specs.Answers.{average_of, average_answer, averaged_answer};
ghost use Rattle.luwhenoka.specs.Promises.{Averages, AveragesOf};

use crate::instants::index_instant;
use crate::{AverageAnswer, BEYOND, IN_HUNDREDTHS};
use calls::refusals::Refusal;
use fields::field::Field;
use page::layout::HEAD_KIND;
use rule::averages::average;
use rule::{Average, Pair};

// The cases of an average as numbers.
impl From<Average> for AverageAnswer {
    ghost from_gives = { λ average answer. answer ≡ average_answer 0 average };

    fn from(average: Average) -> AverageAnswer {
        match average {
            Average::Nothing => AverageAnswer::default(),
            Average::Hundredths(hundredths) => AverageAnswer {
                answer: IN_HUNDREDTHS,
                hundredths,
                ..AverageAnswer::default()
            },
            Average::Beyond => AverageAnswer {
                answer: BEYOND,
                ..AverageAnswer::default()
            },
        }
    }
}

// A refusal is no average.
impl From<Result<Average, Refusal>> for AverageAnswer {
    ghost from_gives = { λ average answer. answer ≡ averaged_answer (average_of average) };

    fn from(average: Result<Average, Refusal>) -> AverageAnswer {
        match average {
            Ok(average) => average.into(),
            Err(refusal) => AverageAnswer {
                status: refusal.into(),
                ..AverageAnswer::default()
            },
        }
    }
}

// The average of a kind's sum and count: as the program prints it for each run of a listing.
pub fn luw_average_of(kind: u32, sum: i64, count: i32) -> AverageAnswer
    ensures { AveragesOf kind sum count result }
{
    average(kind, Pair { sum, count }).into()
}

// The kind that the head names.
fn kind_of(img: &[u8]) -> u32
    requires { 40 ≤ length img.now }
    ensures { result ≡ u32_at img.now 24 }
{
    u32::read_at(img, HEAD_KIND)
}

// "The average's pair is taken by an instant call": its refusals are that call's.
fn index_average(img: &[u8], t: u32) -> Result<Average, Refusal>
    ensures { average_of result ≡ index_average t img.now }
{
    let found = index_instant(img, t)?.found.ok_or(Refusal::Unsound)?;
    Ok(average(kind_of(img), found.pair))
}

// What C gets of it.
pub fn luw_average(img: &[u8], t: u32) -> AverageAnswer
    ensures { Averages t img.now result }
{
    index_average(img, t).into()
}
