// Edges of parts of the tree, put together.
ghost use Rattle.std.specs.Prelude.{◌≡◌};
ghost use Rattle.rule.specs.Bounds.{Combinable};
ghost use Rattle.neighbours.specs.Edges.{joined, under_pair};

use super::Edges;
use rule::Pair;
use rule::combine::combine;
use rule::limits::TOTALS;

// Of some entries and of those behind them: where they meet, the last total of one and the first of the other are neighbours.
pub(crate) fn joined(a: Edges, b: Edges) -> Edges
    ensures { result ≡ joined a b }
{
    Edges {
        apart: a.apart & (a.last != b.first) & b.apart,
        first: a.first,
        last: b.last,
    }
}

// With the pair of an entry above them in each total.
pub(crate) fn under_pair(pair: Pair, e: Edges) -> Edges
    requires { Combinable pair e.first × Combinable pair e.last }
    ensures { result ≡ under_pair pair e }
{
    Edges {
        first: combine(TOTALS, pair, e.first),
        last: combine(TOTALS, pair, e.last),
        ..e
    }
}
