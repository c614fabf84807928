// A line that comes byte by byte, of any length, in a buffer of fixed size.
ghost use Rattle.std.specs.Prelude.{◌≡◌, ℕ, List, [], ◌∷◌, ◌++◌, take, length};
ghost use Rattle.calls.specs.Program.{cut_at, line_from};
ghost use Rattle.text.specs.Reading.{line_of, Kept, Holds};

use super::parse::parse;
use super::{FED_BYTES, LINE_BYTES};
use calls::bookings::Booking;
use std::marker::Model;

// The line that is being read: its first bytes, as many as there is room for. A line of any length is told from a booking by these.
#[derive(Drop)]
pub struct Fed {
    pub bytes: [u8; FED_BYTES],
    pub length: usize,
}

impl Model for Fed {
    ghost Value = { Kept };

    ghost view = { λ f. record { length = f.length; bytes = take f.length f.bytes } };
}

impl Fed {
    // A line of which nothing has come.
    pub fn new() -> Self
        ensures { Holds result [] }
    {
        Fed {
            bytes: [0; FED_BYTES],
            length: 0,
        }
    }

    // The line has one byte more. Where the length, a public field, says more than there are bytes, that holds of the bytes alone.
    pub fn feed(&mut self, b: u8)
        ensures whole { (line : List ℕ) → Holds self.old line → Holds self.new (line ++ (b ∷ [])) }
        ensures bytes { (line : List ℕ) → self.old.bytes ≡ take 36 line → self.new.bytes ≡ take 36 (line ++ (b ∷ [])) }
    {
        if self.length < FED_BYTES {
            self.bytes[self.length] = b;
            self.length += 1;
        }
    }

    // What is kept of it: no more than the buffer, whatever the length says.
    fn kept(&self) -> &[u8]
        ensures { result.now ≡ self.now.bytes }
    {
        &self.bytes[..self.length.min(FED_BYTES)]
    }

    // How many bytes of it are kept.
    pub fn len(&self) -> usize
        ensures { result ≡ length self.now.bytes }
    {
        self.kept().len()
    }

    // The line that has come, parsed.
    pub fn parse(&self) -> Option<Booking>
        ensures { (line : List ℕ) → self.now.bytes ≡ take 36 line → line_of result ≡ line_from (cut_at 32 line) }
    {
        let line = self.kept();
        if line.len() > LINE_BYTES {
            return None;
        }
        parse(line)
    }
}
