// The full listing, "over [0, END)", printed.
ghost use Rattle.std.specs.Prelude.{◌≤◌, length};
ghost use Rattle.rule.specs.Time.{END};
ghost use Rattle.calls.specs.Calls.{listing};
ghost use Rattle.print.specs.Written.{Put};
ghost use Rattle.program.specs.State.{listed_text};

use crate::printed::put_runs;
use luwhenoka::listings::list_runs;
use page::layout::HALF;
use print::Printer;
use rule::limits::END;

// The listing goes into `list`, which has room for 1,416 runs, as many as 64 pages can have: 59 leaf pages of 24 entries. A run's
// line has 111 bytes at most, and that of their number 26.
pub fn put_listing(img: &[u8], list: &mut [u8], out: &mut [u8]) -> usize
    requires list_len_bound { length list.old ≤ 22656 }
    requires in_bounds { 157202 ≤ length out.old }
    ensures { Put out.old 0
        (listed_text (listing 12 0 END img.now list.old)) out.new result }
{
    let runs = list_runs(HALF, img, 0, END, list).unwrap_or(0);
    let mut printer = Printer { out, at: 0 };
    printer.put_runs_line(u64::from(runs));
    put_runs(&mut printer, list, runs as usize);
    printer.at
}
