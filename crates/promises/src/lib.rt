// The demands, and each function for C called once, under a contract that says what the demands take of it, in the definitions' own
// words: the status, the answer and every byte that it was lent are the definition's, and the call is that step of a list of calls on
// the image that it is handed. The demands hold of every list of such steps; that the functions make them is said here, where a call
// whose own promise said less would not be proved. Nothing of this is exported, and nothing calls it.
#![tactic(auto)]

ghost use Rattle.std.specs.Prelude.{◌≡◌, ◌≢◌, []};
ghost use Rattle.rule.specs.Averages.{average};
ghost use Rattle.calls.specs.Changes.{entering, withdrawing};
ghost use Rattle.image.specs.Images.{half_of};
ghost use Rattle.calls.specs.Index as calls;
ghost use Rattle.claims.specs.Accepted.{AcceptedChange};
ghost use Rattle.claims.specs.Trace.{Step, Trace, change_made};
ghost use Rattle.claims.specs.Rebuild.{RebuiltFrom};
ghost use Rattle.luwhenoka.specs.Answers.{average_answer};
ghost use Rattle.promises.specs.AfterLists.{AfterLists, InstantAs, AverageAs, ListingAs, AuditAs, BookingAs, RebuildAs};
ghost use Rattle.promises.specs.Rebuilt.{GoesOn};

use luwhenoka::audits::luw_audit;
use luwhenoka::averages::{luw_average, luw_average_of};
use luwhenoka::bookings::{luw_enter, luw_withdraw};
use luwhenoka::formats::luw_format;
use luwhenoka::instants::luw_instant;
use luwhenoka::listings::luw_listing;
use luwhenoka::rebuilds::luw_rebuild;
use luwhenoka::{AverageAnswer, InstantAnswer, ListingAnswer};

// A format that returns 0 begins a list, and a refused one keeps the image.
pub fn format(img: &mut [u8], kind: u32, window: u32, capacity: u32) -> u32
    ensures as_defined { record { status = result; image = img.new } ≡ calls.index_format kind window capacity img.old }
    ensures trace { result ≡ 0 → Trace kind window capacity img.new [] }
    ensures step { result ≢ 0 → Step img.old [] img.new }
{
    luw_format(img, kind, window, capacity)
}

// A booking makes its change if it returns 0, and none if it is refused. What an accepted change leaves is said of images of bytes, and
// every image that is lent is one.
pub fn enter(img: &mut [u8], scratch: &mut [u8], v: i64, s: u32, e: u32) -> u32
    ensures as_defined { record { status = result; image = img.new; scratch = scratch.new }
        ≡ calls.index_book entering v s e img.old scratch.old }
    ensures step { Step img.old (change_made result (record { side = entering; v = v; s = s; e = e })) img.new }
    ensures accepted_change { result ≡ 0 → AcceptedChange (half_of img.old) entering v s e img.old img.new }
    ensures after_lists { AfterLists img.old (BookingAs entering v s e img.old scratch.old result) }
{
    luw_enter(img, scratch, v, s, e)
}

pub fn withdraw(img: &mut [u8], scratch: &mut [u8], v: i64, s: u32, e: u32) -> u32
    ensures as_defined { record { status = result; image = img.new; scratch = scratch.new }
        ≡ calls.index_book withdrawing v s e img.old scratch.old }
    ensures step { Step img.old (change_made result (record { side = withdrawing; v = v; s = s; e = e })) img.new }
    ensures accepted_change { result ≡ 0 → AcceptedChange (half_of img.old) withdrawing v s e img.old img.new }
    ensures after_lists { AfterLists img.old (BookingAs withdrawing v s e img.old scratch.old result) }
{
    luw_withdraw(img, scratch, v, s, e)
}

// Who only reads an image keeps it, and tells after any list of calls what the book does.
pub fn instant(img: &[u8], t: u32) -> InstantAnswer
    ensures as_defined { record {
      status = result.status;
      pair = record { sum = result.sum; count = result.count };
      start = result.start;
      end = result.end;
      pages = result.pages;
    }
        ≡ calls.index_instant t img.now }
    ensures step { Step img.entry.now [] img.exit.now }
    ensures after_lists { AfterLists img.now (InstantAs t result) }
{
    luw_instant(img, t)
}

pub fn listing(img: &[u8], a: u32, b: u32, out: &mut [u8]) -> ListingAnswer
    ensures as_defined { record { status = result.status; runs = result.runs; output = out.new }
        ≡ calls.index_listing a b img.now out.old }
    ensures step { Step img.entry.now [] img.exit.now }
    ensures after_lists { AfterLists img.now (ListingAs a b out.old result out.new) }
{
    luw_listing(img, a, b, out)
}

pub fn audit(img: &[u8], scratch: &mut [u8]) -> u32
    ensures as_defined { record { status = result; scratch = scratch.new }
        ≡ calls.index_audit img.now scratch.old }
    ensures step { Step img.entry.now [] img.exit.now }
    ensures after_lists { AfterLists img.now (AuditAs img.now scratch.old result) }
{
    luw_audit(img, scratch)
}

pub fn average_at(img: &[u8], t: u32) -> AverageAnswer
    ensures as_defined { result ≡ average_answer (calls.index_average t img.now).status
        (calls.index_average t img.now).average }
    ensures step { Step img.entry.now [] img.exit.now }
    ensures after_lists { AfterLists img.now (AverageAs t result) }
{
    luw_average(img, t)
}

// A rebuild keeps its source. If it returns 0, the target goes on with the source's list; if it is refused, with its own.
pub fn rebuild(source: &[u8], target: &mut [u8], scratch: &mut [u8]) -> u32
    ensures as_defined { record { status = result; target = target.new; scratch = scratch.new }
        ≡ calls.index_rebuild source.now target.old scratch.old }
    ensures step { Step source.entry.now [] source.exit.now }
    ensures goes_on { result ≡ 0 → GoesOn source.now target.new }
    ensures step_2 { result ≢ 0 → Step target.old [] target.new }
    ensures rebuilt_from { result ≡ 0 → RebuiltFrom source.now target.old target.new }
    ensures after_lists { AfterLists source.now (RebuildAs source.now target.old scratch.old result
        target.new scratch.new) }
{
    luw_rebuild(source, target, scratch)
}

// An average without an image is no step of a list.
pub fn average_of(kind: u32, sum: i64, count: i32) -> AverageAnswer
    ensures { result ≡ average_answer 0 (average kind (record { sum = sum; count = count })) }
{
    luw_average_of(kind, sum, count)
}
