// The path of an instant, from the root to a leaf and back.
ghost use Rattle.std.specs.Prelude.{◌≡◌, ◌≤◌, None};
ghost use Rattle.rule.specs.Pairs.{combine};
ghost use Rattle.image.specs.Instant.{above, look_up};
ghost use Rattle.access.specs.Access.{OpenImage};
ghost use Rattle.lookup.specs.Levels.{Met};
ghost use Rattle.lookup.specs.Answers.{lookup_of, CombinableAbove, AnswersFrom};

use super::levels::level_answer;
use super::{Holding, LevelAnswer, LookupAnswer};
use fit::contexts::{context_under, root_context};
use page::{Entry, Head, PageContext};
use rule::Pair;
use rule::combine::combine;

// An entry's pair combined with what was found below it: the start and the end are passed up from the leaf.
fn combine_above(kind: u32, pair: Pair, below: LookupAnswer) -> LookupAnswer
    requires { CombinableAbove pair below }
    ensures { lookup_of result ≡ above (combine kind) pair (lookup_of below) }
{
    LookupAnswer {
        found: below.found.map(|x| Holding {
            pair: combine(kind, pair, x.pair),
            ..x
        }),
        pages: below.pages + 1,
    }
}

// Of so many pages the last is unfit.
fn unfit_after(pages: u32) -> LookupAnswer
    ensures { result ≡ record { found = None; pages = pages } }
{
    LookupAnswer { found: None, pages }
}

// From an entry that has t, in a page of that context, and its end: down to the leaf and back, so that the pairs are combined leaf first.
// The level falls. The page below is judged where its context is made: handed to a call before that, the context would wait for its stores.
fn look(
    half: usize,
    img: &[u8],
    h: Head,
    at: PageContext,
    t: u32,
    e: Entry,
    end: u32,
) -> LookupAnswer
    requires opened { (1 ≤ half) × OpenImage half img.now h }
    requires met { Met half img.now h at t e end }
    ensures { AnswersFrom half img.now h at t e end result }
{
    let pair = e.pair;
    if at.level == 0 {
        let start = e.start;
        return LookupAnswer {
            found: Some(Holding { pair, start, end }),
            pages: 1,
        };
    }
    let under = context_under(at, e.start, end, pair);
    let LevelAnswer::Entry(x, x_end) = level_answer(half, img, e.child, h, under, t) else {
        // 21: "if a page is unfit, the pages up to and including it", which are the entry's own and the one below.
        return unfit_after(2);
    };
    combine_above(h.kind, pair, look(half, img, h, under, t, x, x_end))
}

// The answer at t of an image whose head is fit.
pub fn look_up(half: usize, img: &[u8], h: Head, t: u32) -> LookupAnswer
    requires { (1 ≤ half) × OpenImage half img.now h }
    ensures { lookup_of result ≡ look_up half img.now t }
{
    let at = root_context(h);
    let LevelAnswer::Entry(e, end) = level_answer(half, img, h.root, h, at, t) else {
        return unfit_after(1);
    };
    look(half, img, h, at, t, e, end)
}
