// What a line does.
ghost use Rattle.std.specs.Prelude.{◌+◌, ◌≤◌, Some, length};
ghost use Rattle.calls.specs.Program.{ran_line};
ghost use Rattle.text.specs.Reading.{line_of};
ghost use Rattle.program.specs.Simulation.{Does};

use crate::SCRATCH_BYTES;
use booking::book::book;
use calls::bookings::Booking;
use page::layout::HALF;
use print::Printer;

// A booking, with a scratch of its own: "`line K refused N` for a refused line K (from 1)".
fn run_booking(img: &mut [u8], printer: &mut Printer<'_>, k: u64, booking: Booking)
    requires { printer.old.at + 55 ≤ length printer.old.out.now }
    ensures { Does (ran_line 12 64 k (line_of (Some booking)) img.old) img.new printer.old printer.new }
{
    let mut scratch = [0u8; SCRATCH_BYTES];
    if let Err(refusal) = book(HALF, img, &mut scratch, booking) {
        printer.put_refused(k, refusal.into());
    }
}

// Any line: "`line K unread` for any other form".
pub(crate) fn run_line(img: &mut [u8], printer: &mut Printer<'_>, k: u64, line: Option<Booking>)
    requires { printer.old.at + 55 ≤ length printer.old.out.now }
    ensures { Does (ran_line 12 64 k (line_of line) img.old) img.new printer.old printer.new }
{
    match line {
        Some(booking) => run_booking(img, printer, k, booking),
        None => printer.put_unread(k),
    }
}
