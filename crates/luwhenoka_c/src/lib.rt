// The calls of `luwhenoka` under their names for C and Rust: a crate is a library for other crates or an archive, not both. Each hands on
// what it is given, under the same contract.
#![tactic(auto)]

ghost use Rattle.calls.specs.Changes.{entering, withdrawing};
ghost use Rattle.luwhenoka.specs.Promises.{Formats, Books, Answers, Averages, AveragesOf, Lists, Audits, Rebuilds};

use luwhenoka::{
    AverageAnswer, InstantAnswer, ListingAnswer, audits, averages, bookings, formats, instants,
    listings, rebuilds,
};

#[unsafe(no_mangle)]
pub extern "C" fn luw_format(img: &mut [u8], kind: u32, window: u32, capacity: u32) -> u32
    ensures { Formats kind window capacity img.old result img.new }
{
    formats::luw_format(img, kind, window, capacity)
}

#[unsafe(no_mangle)]
pub extern "C" fn luw_enter(img: &mut [u8], scratch: &mut [u8], v: i64, s: u32, e: u32) -> u32
    ensures { Books entering v s e img.old scratch.old result img.new scratch.new }
{
    bookings::luw_enter(img, scratch, v, s, e)
}

#[unsafe(no_mangle)]
pub extern "C" fn luw_withdraw(img: &mut [u8], scratch: &mut [u8], v: i64, s: u32, e: u32) -> u32
    ensures { Books withdrawing v s e img.old scratch.old result img.new scratch.new }
{
    bookings::luw_withdraw(img, scratch, v, s, e)
}

#[unsafe(no_mangle)]
pub extern "C" fn luw_instant(img: &[u8], t: u32) -> InstantAnswer
    ensures { Answers t img.now result }
{
    instants::luw_instant(img, t)
}

#[unsafe(no_mangle)]
pub extern "C" fn luw_average_of(kind: u32, sum: i64, count: i32) -> AverageAnswer
    ensures { AveragesOf kind sum count result }
{
    averages::luw_average_of(kind, sum, count)
}

#[unsafe(no_mangle)]
pub extern "C" fn luw_average(img: &[u8], t: u32) -> AverageAnswer
    ensures { Averages t img.now result }
{
    averages::luw_average(img, t)
}

#[unsafe(no_mangle)]
pub extern "C" fn luw_listing(img: &[u8], a: u32, b: u32, out: &mut [u8]) -> ListingAnswer
    ensures { Lists a b img.now out.old result out.new }
{
    listings::luw_listing(img, a, b, out)
}

#[unsafe(no_mangle)]
pub extern "C" fn luw_audit(img: &[u8], scratch: &mut [u8]) -> u32
    ensures { Audits img.now scratch.old result scratch.new }
{
    audits::luw_audit(img, scratch)
}

#[unsafe(no_mangle)]
pub extern "C" fn luw_rebuild(source: &[u8], target: &mut [u8], scratch: &mut [u8]) -> u32
    ensures { Rebuilds source.now target.old scratch.old result target.new scratch.new }
{
    rebuilds::luw_rebuild(source, target, scratch)
}
