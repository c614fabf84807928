// "Runs over [a, b), the first starting at a: joined as long as the pair is equal".
ghost use Rattle.std.specs.Prelude.{◌≡◌, ◌≤◌};
ghost use Rattle.calls.specs.Calls.{listing};
ghost use Rattle.calls.specs.Index.{index_listing};
ghost use Rattle.luwhenoka.specs.Answers.{runs_of, listed_of, listing_answer};
ghost use Rattle.luwhenoka.specs.Promises.{Lists};
ghost use Rattle.calls.specs.Numbers.{status_of};

use crate::ListingAnswer;
use crate::judge::judge;
use access::heads::open_head;
use access::lengths::length_fits;
use calls::refusals::{ACCEPTED, Refusal};
use listing::passes::{count_runs, write_runs};
use runs::RUN_BYTES;

impl From<Result<u32, Refusal>> for ListingAnswer {
    ghost from_gives = { λ listed answer. answer ≡ record { status = status_of listed; runs = runs_of listed } };

    fn from(listed: Result<u32, Refusal>) -> ListingAnswer {
        match listed {
            Ok(runs) => ListingAnswer {
                status: ACCEPTED,
                runs,
            },
            Err(refusal) => ListingAnswer {
                status: refusal.into(),
                ..ListingAnswer::default()
            },
        }
    }
}

// The number of runs over [a, b), written from the output's first byte on, by half the capacity. The order is 16, 11, 21, 15,
// and nothing is written before all four are passed.
pub fn list_runs(half: usize, img: &[u8], a: u32, b: u32, out: &mut [u8]) -> Result<u32, Refusal>
    requires { (2 ≤ half) × (half ≤ 12) }
    ensures { listed_of result out.new ≡ listing half a b img.now out.old }
{
    if !length_fits(half, img) {
        return Err(Refusal::ImageLength);
    }
    if b <= a {
        return Err(Refusal::SpanEmpty);
    }
    let h = open_head(half, img).ok_or(Refusal::Unsound)?;
    let runs = count_runs(half, img, h, a, b).ok_or(Refusal::Unsound)?;
    if out.len() / RUN_BYTES < runs as usize {
        return Err(Refusal::OutputShort);
    }
    write_runs(half, img, h, a, b, out);
    Ok(runs)
}

// The same, as C gets it.
pub fn listing(half: usize, img: &[u8], a: u32, b: u32, out: &mut [u8]) -> ListingAnswer
    requires { (2 ≤ half) × (half ≤ 12) }
    ensures { listing_answer result out.new ≡ listing half a b img.now out.old }
{
    list_runs(half, img, a, b, out).into()
}

// The same by the capacity that the image names.
fn index_listing(img: &[u8], a: u32, b: u32, out: &mut [u8]) -> Result<u32, Refusal>
    ensures { listed_of result out.new ≡ index_listing a b img.now out.old }
{
    list_runs(judge(img)?, img, a, b, out)
}

// What C gets of it.
pub fn luw_listing(img: &[u8], a: u32, b: u32, out: &mut [u8]) -> ListingAnswer
    ensures { Lists a b img.now out.old result out.new }
{
    index_listing(img, a, b, out).into()
}
