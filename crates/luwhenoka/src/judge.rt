// What every call on an image reads first: the capacity of its pages.
ghost use Rattle.std.specs.Prelude.{◌≡◌, IfOk};
ghost use Rattle.image.specs.Images.{half_of};
ghost use Rattle.calls.specs.Numbers.{status_of};
ghost use Rattle.calls.specs.Index.{judge};

use calls::refusals::Refusal;
use fields::field::Field;
use page::capacities::{capacity_named, capacity_ok};
use page::layout::{HEAD_BYTES, HEAD_CAPACITY};

// Each `index_..` that goes on from here is written out: it is one line, and a function of a closure has the same clauses besides.

// Half the capacity that an image names: "In an image K is read before the length is judged: under 40 bytes gives 16, a bad K 21 ahead
// of 16".
pub(crate) fn judge(img: &[u8]) -> Result<usize, Refusal>
    ensures status { status_of result ≡ judge img.now }
    ensures named { IfOk result (λ half. half ≡ half_of img.now) }
{
    if img.len() < HEAD_BYTES {
        return Err(Refusal::ImageLength);
    }
    let k = capacity_named(u32::read_at(img, HEAD_CAPACITY));
    if !capacity_ok(k) {
        return Err(Refusal::Unsound);
    }
    Ok((k / 2) as usize)
}
