// "Combine: from the root".
ghost use Rattle.store.specs.Encoding.{Encodes, Pre, Post};
ghost use Rattle.combine_span.specs.SpanCombinable.{combine_span_by, SpanCombinable};

use crate::SpanEffect;
use crate::pages::combine_page;
use rule::limits::END;
use store::heads::head_of;

// The whole step: the root ends at END.
pub fn combine_span(half: usize, img: &mut [u8], q: SpanEffect)
    requires { Pre half img.old (SpanCombinable q) }
    ensures { Post half img.old (SpanCombinable q) (λ X. Encodes half img.new (combine_span_by q X)) }
{
    let h = head_of(half, img);
    combine_page(half, img, q, h.height - 1, END, h.root)
}
