// An average: document 01's "two decimals, a minus if below zero, zero without one, `-` for none".
ghost use Rattle.std.specs.Prelude.{◌+◌, ◌≤◌, length};
ghost use Rattle.calls.specs.Program.{two_decimals, average_text};
ghost use Rattle.print.specs.Written.{Prints};

use super::Printer;
use rule::Average;

impl Printer<'_> {
    // Hundredths as a number with two decimals.
    fn put_hundredths(&mut self, n: u64)
        requires { self.old.at + 23 ≤ length self.old.out.now }
        ensures { Prints self.old (two_decimals n) self.new }
    {
        self.put_decimal(n / 100);
        self.put_byte(b'.');
        self.put_byte(b'0' + (n / 10 % 10) as u8);
        self.put_byte(b'0' + (n % 10) as u8);
    }

    pub(crate) fn put_average(&mut self, average: Average)
        requires { self.old.at + 24 ≤ length self.old.out.now }
        ensures { Prints self.old (average_text average) self.new }
    {
        match average {
            Average::Hundredths(h) => {
                self.put_sign(h);
                self.put_hundredths(h.unsigned_abs());
            }
            Average::Nothing | Average::Beyond => self.put_byte(b'-'),
        }
    }
}
