// The two passes: nothing may be written before it is known that every page met is fit and that the runs have room.
ghost use Rattle.std.specs.Prelude.{◌≡◌, true, ◌*◌, ◌≤◌, length};
ghost use Rattle.fields.specs.Bytes.{patch};
ghost use Rattle.lists.specs.Lists.{concat_map};
ghost use Rattle.image.specs.Listing.{walk_over, join, run_bytes};
ghost use Rattle.runs.specs.Open.{no_run};
ghost use Rattle.access.specs.Access.{OpenImage};
ghost use Rattle.listing.specs.Walks.{count, Room, Does};

use crate::pages::check_page;
use crate::pass::{Counting, Pass, Writing};
use crate::walks::walk_page;
use crate::{Cursor, SpanQuery};
use fit::contexts::root_context;
use page::Head;
use rule::Pair;
use runs::Run;

// The walk from the root, before any run.
fn walk_root<P: Pass>(img: &[u8], out: &mut [u8], q: SpanQuery) -> Option<Run>
    requires opened { (1 ≤ q.half) × (q.half ≤ 12) × OpenImage q.half img.now q.head }
    requires room { Room q.known P.writes no_run (walk_over q.half img.now q.a q.b) out.old }
    ensures { Does P.writes no_run (walk_over q.half img.now q.a q.b) out.old result
        out.new }
{
    let root = Cursor {
        at: root_context(q.head),
        page: q.head.root,
        above: Pair::NONE,
    };
    let first = Run {
        start: 0,
        pair: Pair::NONE,
        written: 0,
    };
    let n = check_page(img, q, root)?;
    walk_page::<P>(img, out, q, root, n, first)
}

// The walk that counts: the number of runs over [a, b), unless a page that it meets is unfit.
fn count_walk(half: usize, img: &[u8], h: Head, a: u32, b: u32, known: bool) -> Option<u32>
    requires opened { (1 ≤ half) × (half ≤ 12) × OpenImage half img.now h }
    requires all_fit { known ≡ true → (walk_over half img.now a b).fit ≡ true }
    ensures { result ≡ count (walk_over half img.now a b) }
{
    let q = SpanQuery {
        half,
        head: h,
        a,
        b,
        known,
    };
    let last = walk_root::<Counting>(img, &mut [], q)?;
    Some(last.written)
}

// The first pass: every page met is checked.
pub fn count_runs(half: usize, img: &[u8], h: Head, a: u32, b: u32) -> Option<u32>
    requires { (1 ≤ half) × (half ≤ 12) × OpenImage half img.now h }
    ensures { result ≡ count (walk_over half img.now a b) }
{
    count_walk(half, img, h, a, b, false)
}

// The same where every page met is known to be fit: none is checked, and there is a number.
pub fn count_known_runs(half: usize, img: &[u8], h: Head, a: u32, b: u32) -> u32
    requires opened { (1 ≤ half) × (half ≤ 12) × OpenImage half img.now h }
    requires all_fit { (walk_over half img.now a b).fit ≡ true }
    ensures { result ≡ length (join (walk_over half img.now a b).runs) }
{
    count_walk(half, img, h, a, b, true).unwrap_or(0)
}

// The second pass: the runs over [a, b) are written from the output's first byte on.
pub fn write_runs(half: usize, img: &[u8], h: Head, a: u32, b: u32, out: &mut [u8])
    requires opened { (1 ≤ half) × (half ≤ 12) × OpenImage half img.now h }
    requires all_fit { (walk_over half img.now a b).fit ≡ true }
    requires room { 16 * length (join (walk_over half img.now a b).runs) ≤ length out.old }
    ensures { out.new
        ≡ patch out.old 0 (concat_map run_bytes (join (walk_over half img.now a b).runs)) }
{
    let q = SpanQuery {
        half,
        head: h,
        a,
        b,
        known: true,
    };
    walk_root::<Writing>(img, out, q);
}
