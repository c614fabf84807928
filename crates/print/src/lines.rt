// The lines that the program prints.
ghost use Rattle.std.specs.Prelude.{[], ◌∷◌, ◌++◌, ◌+◌, ◌≤◌, length};
ghost use Rattle.calls.specs.Program.{decimal, integer, refused_text, unread_text, run_text};
ghost use Rattle.print.specs.Written.{Prints, runs_line};

use super::Printer;
use rule::Pair;
use rule::averages::average;
use rule::limits::TOTALS;

impl Printer<'_> {
    // "prints `line K refused N` for a refused line K (from 1)"
    pub fn put_refused(&mut self, k: u64, status: u32)
        requires { self.old.at + 55 ≤ length self.old.out.now }
        ensures { Prints self.old (refused_text k status) self.new }
    {
        self.put_text(b"line ");
        self.put_decimal(k);
        self.put_text(b" refused ");
        self.put_decimal(u64::from(status));
        self.put_byte(b'\n');
    }

    // "`line K unread` for any other form"
    pub fn put_unread(&mut self, k: u64)
        requires { self.old.at + 33 ≤ length self.old.out.now }
        ensures { Prints self.old (unread_text k) self.new }
    {
        self.put_text(b"line ");
        self.put_decimal(k);
        self.put_text(b" unread\n");
    }

    // "then `runs` with their number"
    pub fn put_runs_line(&mut self, count: u64)
        requires { self.old.at + 26 ≤ length self.old.out.now }
        ensures { Prints self.old (runs_line count) self.new }
    {
        self.put_text(b"runs ");
        self.put_decimal(count);
        self.put_byte(b'\n');
    }

    // An instant of a run, and the space behind it.
    fn put_instant(&mut self, t: u32)
        requires { self.old.at + 21 ≤ length self.old.out.now }
        ensures { Prints self.old (decimal t ++ (32 ∷ [])) self.new }
    {
        self.put_decimal(u64::from(t));
        self.put_byte(b' ');
    }

    // A sum or a count, and the space behind it.
    fn put_amount(&mut self, z: i64)
        requires { self.old.at + 22 ≤ length self.old.out.now }
        ensures { Prints self.old (integer z ++ (32 ∷ [])) self.new }
    {
        self.put_integer(z);
        self.put_byte(b' ');
    }

    // "each run as start, end, sum, count, average"
    pub fn put_run(&mut self, start: u32, end: u32, pair: Pair)
        requires { self.old.at + 111 ≤ length self.old.out.now }
        ensures { Prints self.old (run_text (record { start = start; pair = pair }) end) self.new }
    {
        self.put_instant(start);
        self.put_instant(end);
        self.put_amount(pair.sum);
        self.put_amount(i64::from(pair.count));
        self.put_average(average(TOTALS, pair));
        self.put_byte(b'\n');
    }
}
