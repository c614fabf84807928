// The combining rule of each kind. Document 01, "Time and value".
ghost use Rattle.std.specs.Prelude.{◌≡◌, if◌then◌else◌, nat_eq};
ghost use Rattle.rule.specs.Pairs.{greater, lesser, combine};
ghost use Rattle.rule.specs.Bounds.{Combinable};

use crate::Pair;
use crate::limits::{GREATEST, TOTALS};

// The greater of two numbers for kind 2, else the lesser.
fn best(kind: u32, a: i64, b: i64) -> i64
    ensures { result ≡ (if nat_eq kind 2 then greater a b else lesser a b) }
{
    if kind == GREATEST { a.max(b) } else { a.min(b) }
}

// What two pairs of a kind amount to together: 1 totals, 2 greatest, 3 least.
pub fn combine(kind: u32, p: Pair, q: Pair) -> Pair
    requires { Combinable p q }
    ensures { result ≡ combine kind p q }
{
    if kind == TOTALS {
        return Pair {
            sum: p.sum + q.sum,
            count: p.count + q.count,
        };
    }
    if p == Pair::NONE {
        return q;
    }
    if q == Pair::NONE {
        return p;
    }
    Pair {
        sum: best(kind, p.sum, q.sum),
        count: 1,
    }
}
