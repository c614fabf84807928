// The runs of a listing, read back from its output and printed.
ghost use Rattle.std.specs.Prelude.{◌≡◌, ◌+◌, ◌*◌, ◌-◌, ◌≤◌, ◌<◌, length};
ghost use Rattle.calls.specs.Program.{run_text, runs_text};
ghost use Rattle.print.specs.Written.{Prints};
ghost use Rattle.runs.specs.Listed.{run_at};
ghost use Rattle.program.specs.Listed.{runs_at, end_before};

use print::Printer;
use rule::limits::END;
use runs::listed::run_at;

// A run ends where the next one starts, and the last of n at END.
fn end_of(list: &[u8], n: usize, i: usize) -> u32
    requires i_lt_n { i < n }
    requires n_in_bounds { 16 * n ≤ length list.now }
    ensures { result ≡ end_before list.now i (n - (i + 1)) }
{
    let next = i + 1;
    if next == n {
        return END;
    }
    run_at(list, next).start
}

// "each run as start, end, sum, count, average"
fn put_one(printer: &mut Printer<'_>, list: &[u8], n: usize, i: usize)
    requires at_in_bounds { printer.old.at + 111 ≤ length printer.old.out.now }
    requires i_lt_n { i < n }
    requires n_in_bounds { 16 * n ≤ length list.now }
    ensures { Prints printer.old
        (run_text (run_at list.now i) (end_before list.now i (n - (i + 1))))
        printer.new }
{
    let run = run_at(list, i);
    printer.put_run(run.start, end_of(list, n, i), run.pair);
}

// The n runs of a listing.
pub(crate) fn put_runs(printer: &mut Printer<'_>, list: &[u8], n: usize)
    requires at_in_bounds { printer.old.at + 111 * n ≤ length printer.old.out.now }
    requires n_in_bounds { 16 * n ≤ length list.now }
    ensures { Prints printer.old (runs_text (runs_at list.now 0 n)) printer.new }
{
    for i in 0..n {
        put_one(printer, list, n, i);
    }
}
