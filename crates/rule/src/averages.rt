// The average, document 01, "Time and value": for kind 1, in hundredths. Document 02, (ix): a half goes to the even one.
ghost use Rattle.std.specs.Prelude.{◌≡◌, ◌^◌, ◌<◌, pos, unsigned_abs};
ghost use Rattle.rule.specs.Averages.{signed_as, next_taken, hundredths, average};
ghost use Rattle.rule.specs.Bounds.{Averageable};

use crate::limits::{MOST_SUM, TOTALS};
use crate::{Average, Pair};

// One step away from zero, on the side of the sum's sign.
fn away(sum: i64) -> i64
    ensures { result ≡ signed_as sum (pos 1) }
{
    if sum < 0 { -1 } else { 1 }
}

// Whether the next number away from zero is nearer than the quotient, or as near while the quotient is odd. Divided by 2, an odd number
// below zero leaves -1.
fn next_taken(quotient: i64, rest: u64, count: u64) -> bool
    requires { rest < 2 ^ 63 }
    ensures { result ≡ next_taken (unsigned_abs quotient) rest count }
{
    let twice = 2 * rest;
    (twice > count) | ((twice == count) & (quotient % 2 != 0))
}

// The whole number nearest 100 × sum / count, of two that are equally near the even one. Division cuts towards zero, and what it leaves has
// the sum's sign.
fn rounded(sum: i64, count: i64) -> i64
    requires { Averageable sum count }
    ensures { result ≡ hundredths sum (unsigned_abs count) }
{
    let scaled = 100 * sum;
    let quotient = scaled / count;
    let rest = (scaled % count).unsigned_abs();
    if next_taken(quotient, rest, count.unsigned_abs()) {
        quotient + away(sum)
    } else {
        quotient
    }
}

// The average of a pair of a kind, for any numbers that a damaged page may hold.
pub fn average(kind: u32, pair: Pair) -> Average
    ensures { result ≡ average kind pair }
{
    let Pair { sum, count } = pair;
    if (kind != TOTALS) | (count <= 0) {
        return Average::Nothing;
    }
    if sum.unsigned_abs() <= MOST_SUM {
        return Average::Hundredths(rounded(sum, i64::from(count)));
    }
    Average::Beyond
}
