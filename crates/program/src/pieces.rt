// The text, byte by byte.
ghost use Rattle.std.specs.Prelude.{◌≡◌, ◌+◌, ◌*◌, ◌≤◌, ◌<◌, ◌^◌, length, replicate};
ghost use Rattle.program.specs.State.{at_first, line_run, after_byte, after_bytes, ended};
ghost use Rattle.program.specs.Simulation.{Begins, SimulatesStep, Flushes, Advances};

use crate::Reading;
use crate::lines::run_line;
use luwhenoka::formats::luw_format;
use page::capacities::MOST_CAPACITY;
use print::Printer;
use rule::limits::TOTALS;
use text::Fed;

// "(64 pages, kind 1, w = 0)": the image before the first line. "The program and document 01's cases keep K = 24."
pub fn begin(img: &mut [u8])
    requires { img.old ≡ replicate 32768 0 }
    ensures { img.new ≡ (at_first 12 64).image }
{
    luw_format(img, TOTALS, 0, MOST_CAPACITY);
}

// Before the first byte.
pub fn at_first() -> Reading
    ensures { Begins result }
{
    Reading {
        fed: Fed::new(),
        number: 1,
        at: 0,
    }
}

impl Reading {
    // The same with nothing printed, for an output that is empty again.
    pub fn flush(&mut self)
        ensures flushes { Flushes self.old self.new }
        ensures at_value { (self.new.at ≡ 0) × (self.new.number ≡ self.old.number) }
    {
        self.at = 0;
    }

    // The line that has come is run, and the next one begins.
    fn end_line(&mut self, img: &mut [u8], out: &mut [u8])
        requires at_in_bounds { self.old.at + 55 ≤ length out.old }
        requires number_bound { self.old.number + 1 < 2 ^ 64 }
        ensures simulates_step { SimulatesStep (line_run 12 64) self.old img.old out.old self.new img.new out.new }
        ensures advances { Advances 1 self.old self.new }
    {
        let mut printer = Printer { out, at: self.at };
        run_line(img, &mut printer, self.number, self.fed.parse());
        self.at = printer.at;
        self.fed = Fed::new();
        self.number += 1;
    }

    // One byte: a newline ends the line, any other belongs to it.
    fn run_byte(&mut self, img: &mut [u8], out: &mut [u8], b: u8)
        requires at_in_bounds { self.old.at + 55 ≤ length out.old }
        requires number_bound { self.old.number + 1 < 2 ^ 64 }
        ensures simulates_step { SimulatesStep (after_byte 12 64 b) self.old img.old out.old self.new img.new out.new }
        ensures advances { Advances 1 self.old self.new }
    {
        if b == b'\n' {
            self.end_line(img, out);
        } else {
            self.fed.feed(b);
        }
    }

    // A piece of the text, wherever it was cut.
    pub fn run_piece(&mut self, img: &mut [u8], out: &mut [u8], piece: &[u8])
        requires piece_in_bounds { self.old.at + 55 * length piece.now ≤ length out.old }
        requires piece_bound { self.old.number + length piece.now < 2 ^ 64 }
        ensures simulates_step { SimulatesStep (after_bytes 12 64 piece.now)
            self.old img.old out.old self.new img.new out.new }
        ensures advances { Advances (length piece.now) self.old self.new }
    {
        for b in piece {
            self.run_byte(img, out, *b);
        }
    }

    // The end of the text: "the last newline may be missing".
    pub fn run_last(&mut self, img: &mut [u8], out: &mut [u8])
        requires at_in_bounds { self.old.at + 55 ≤ length out.old }
        requires number_bound { self.old.number + 1 < 2 ^ 64 }
        ensures simulates_step { SimulatesStep (ended 12 64) self.old img.old out.old self.new img.new out.new }
        ensures advances { Advances 1 self.old self.new }
    {
        if self.fed.len() == 0 {
            return;
        }
        self.end_line(img, out);
    }
}
