// Numbers in decimal.
ghost use Rattle.std.specs.Prelude.{◌+◌, ◌<◌, ◌≤◌, length};
ghost use Rattle.calls.specs.Program.{decimal, integer};
ghost use Rattle.print.specs.Written.{Prints, sign_text};

use super::Printer;

impl Printer<'_> {
    // A number: the digits before the last one first.
    pub(crate) fn put_decimal(&mut self, n: u64)
        requires { self.old.at + 20 ≤ length self.old.out.now }
        ensures { Prints self.old (decimal n) self.new }
    {
        if n < 10 {
            self.put_byte(b'0' + n as u8);
            return;
        }
        self.put_decimal(n / 10);
        self.put_byte(b'0' + (n % 10) as u8);
    }

    // "a minus if below zero"
    pub(crate) fn put_sign(&mut self, z: i64)
        requires { self.old.at < length self.old.out.now }
        ensures { Prints self.old (sign_text z) self.new }
    {
        if z < 0 {
            self.put_byte(b'-');
        }
    }

    // A number with its sign: the least number's absolute value is no i64.
    pub(crate) fn put_integer(&mut self, z: i64)
        requires { self.old.at + 21 ≤ length self.old.out.now }
        ensures { Prints self.old (integer z) self.new }
    {
        self.put_sign(z);
        self.put_decimal(z.unsigned_abs());
    }
}
