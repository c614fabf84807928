// "One change in five steps": A. Cut at s. B. Cut at e'. C. Combine the effect into [s, e'). D. Heal at s. E. Heal at e'.
// Then changes rises by 1.
ghost use Rattle.rule.specs.Pairs.{combine};
ghost use Rattle.steps.specs.Change.{change};
ghost use Rattle.store.specs.Encoding.{Encodes, Pre, Post};
ghost use Rattle.change.specs.Changeable.{Changeable};

use combine_span::SpanEffect;
use combine_span::root::combine_span;
use cut::cut::cut;
use heal::heal::heal;
use rule::Pair;
use store::root::count_change;

// Each step finds the image as the one before left it.
pub fn apply(half: usize, img: &mut [u8], kind: u32, s: u32, e: u32, effect: Pair)
    requires { Pre half img.old (Changeable half kind s e effect) }
    ensures { Post half img.old (Changeable half kind s e effect)
        (λ X. Encodes half img.new (change half (combine kind) s e effect X)) }
{
    cut(half, img, s);
    cut(half, img, e);
    let task = SpanEffect { kind, s, e, effect };
    combine_span(half, img, task);
    heal(half, img, kind, s);
    heal(half, img, kind, e);
    count_change(half, img);
}
