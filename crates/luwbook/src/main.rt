// The program of document 01: reads bookings from standard input, says which lines are refused or unread, and lists the runs.
// What each byte does and what is printed is proved in `program`; here it is read and written, in pieces.
#![tactic(auto)]

ghost use Rattle.std.specs.Prelude.{IfOk, IsOk, OnOk, is_ok, ◌≤◌, ◌≡◌, length};
ghost use Rattle.luwbook.specs.Reached.{Moved, Printed, Standing, Ran, Takes, Well, Ends};

use program::ending::put_listing;
use program::pieces::{at_first, begin};
use program::{ENDING_BYTES, IMAGE_BYTES, LIST_BYTES, REFUSED_LINE, Reading};
use std::io;
use std::io::{Print, Read};

// How much is read at once.
const PIECE_BYTES: usize = 4096;

// The last line's number that fits: 2^63 − 1, which no text comes to.
const LAST_LINE: u64 = 9223372036854775807;

// A read or a write has failed, and that was told; or a line's number doesn't fit.
#[derive(Clone, Copy)]
struct Failed;

// The text was read to its end, and no read or write failed: `read_all` alone makes one, of a read that brought no byte.
#[derive(Drop)]
struct ReadToEnd {
    came: usize,
}

// A line on standard error. Nothing is left to be told where that fails, too.
fn say(rt: &HostRuntime, line: &str) {
    let _ = rt.eprintln(line);
}

// A write's answer, as it is: a failure is told on standard error.
fn told(rt: &HostRuntime, written: io::Result<()>) -> Result<(), Failed>
    ensures { is_ok result ≡ is_ok written }
{
    if written.is_err() {
        say(rt, "luwbook: cannot write");
        return Err(Failed);
    }
    Ok(())
}

// Writes what was printed, in as many turns as it takes, and answers whether that went well.
// No contract can say what reaches standard output: this one says what may be handed to it.
fn write_out(rt: &HostRuntime, printed: &[u8]) -> Result<(), Failed>
    requires { Printed printed.now }
    ensures { length printed.now ≡ 0 → IsOk result }
{
    if printed.is_empty() {
        return Ok(());
    }
    told(rt, rt.write_all(printed))
}

// Room for what a piece prints, for the runs of a listing and for their text. It is made here: a proof of the functions below then
// computes no list of so many zeros.
fn room<const N: usize>() -> [u8; N]
    ensures { length result ≡ N }
{
    [0u8; N]
}

// The image, and the program in the middle of its text.
#[derive(Drop)]
struct Running<'a> {
    img: &'a mut [u8],
    reading: Reading,
}

impl Running<'_> {
    // Runs what was read, and writes what that prints: at most 55 bytes for each. A line's number has to fit.
    fn run_some(&mut self, rt: &HostRuntime, piece: &[u8]) -> Result<(), Failed>
        requires piece_len_bound { length piece.now ≤ 4096 }
        requires standing { Standing self.old.reading self.old.img.now }
        ensures { Ran piece.now self.old.reading self.old.img.now (is_ok result) self.new.reading self.new.img.now }
    {
        if self.reading.number > LAST_LINE {
            return Err(Failed);
        }
        let mut out: [u8; PIECE_BYTES * REFUSED_LINE] = room();
        self.reading.flush();
        self.reading.run_piece(self.img, &mut out, piece);
        write_out(rt, &out[..self.reading.at])
    }

    // What a read's answer means, and how many bytes came: a failure is told on standard error.
    fn take_in(
        &mut self,
        rt: &HostRuntime,
        bytes: &[u8],
        got: io::Result<usize>,
    ) -> Result<usize, Failed>
        requires bytes_len_bound { length bytes.now ≤ 4096 }
        requires moved { Moved (length bytes.now) got }
        requires standing { Standing self.old.reading self.old.img.now }
        ensures { Takes got bytes.now self.old.reading self.old.img.now result self.new.reading self.new.img.now }
    {
        let Ok(n) = got else {
            say(rt, "luwbook: cannot read");
            return Err(Failed);
        };
        if n > 0 {
            self.run_some(rt, &bytes[..n])?;
        }
        Ok(n)
    }

    // Reads once, and runs what came: so many bytes.
    fn read_some(&mut self, rt: &HostRuntime) -> Result<usize, Failed>
        requires { Standing self.old.reading self.old.img.now }
        ensures { Well result self.new.reading self.new.img.now }
    {
        let mut bytes = [0u8; PIECE_BYTES];
        let got = rt.stdin().read(&mut bytes);
        self.take_in(rt, &bytes, got)
    }

    // Reads to the end, or to a failure. A proved loop has to end, and nothing says that the input does: so it counts its turns, up to a
    // number that no run comes to.
    fn read_all(&mut self, rt: &HostRuntime) -> Result<ReadToEnd, Failed>
        requires { Standing self.old.reading self.old.img.now }
        ensures standing { Well result self.new.reading self.new.img.now }
        ensures ended { IfOk result (λ read. read.came ≡ 0) }
    {
        for _turn in 0..u64::MAX {
            let came = self.read_some(rt)?;
            if came == 0 {
                return Ok(ReadToEnd { came });
            }
        }
        Err(Failed)
    }

    // The last line, if its newline is missing, and the runs; whether all is written. A text that could not be read to its end has no runs:
    // they would look like those of all of it. So this takes the word of `read_all`.
    fn finish(&mut self, rt: &HostRuntime, read: ReadToEnd) -> Result<(), Failed>
        requires standing { Standing self.old.reading self.old.img.now }
        requires ended { read.came ≡ 0 }
        ensures { OnOk result (Ends self.old.reading self.old.img.now self.new.img.now) }
    {
        if self.reading.number > LAST_LINE {
            return Err(Failed);
        }
        let mut out: [u8; ENDING_BYTES] = room();
        self.reading.flush();
        // One borrow for both: the proof sees then that the listing only reads it.
        let img = &mut *self.img;
        self.reading.run_last(img, &mut out);
        write_out(rt, &out[..self.reading.at])?;
        let mut list: [u8; LIST_BYTES] = room();
        let end = put_listing(img, &mut list, &mut out);
        write_out(rt, &out[..end])
    }
}

// All of the text, and then the runs.
fn run(rt: &HostRuntime) -> Result<(), Failed> {
    let mut img = [0u8; IMAGE_BYTES];
    begin(&mut img);
    let mut running = Running {
        img: &mut img,
        reading: at_first(),
    };
    let end = running.read_all(rt)?;
    running.finish(rt, end)
}

// What failed was told: nothing is left to do.
fn main(rt: HostRuntime) {
    let _ = run(&rt);
}
