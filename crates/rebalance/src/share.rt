// All entries of two pages, shared anew. Entries go over one at a time, so that neither page is decoded.
ghost use Rattle.std.specs.Prelude.{◌++◌};
ghost use Rattle.image.specs.Images.{tree};
ghost use Rattle.steps.specs.Supply.{entries, put};
ghost use Rattle.store.specs.Encoding.{Encodes, PreLevel, PostLevel};
ghost use Rattle.rebalance.specs.Siblings.{Appendable, Sharable, Movable, Nearer, shared};

use store::edits::{insert_entry, remove_entry};
use store::entries::{entry_count_in, entry_of};

// The entries of page b behind those of page a. Page b keeps its own: whoever calls gives it back.
pub(crate) fn append_all(half: usize, img: &mut [u8], a: u32, b: u32)
    requires { PreLevel half img.old (λ v. Appendable half v a b) }
    ensures { PostLevel half img.old (λ v. Appendable half v a b)
        (λ v X. Encodes half img.new (put a (tree v (entries X a ++ entries X b)) X)) }
{
    let m = entry_count_in(half, img, a);
    for i in 0..entry_count_in(half, img, b) {
        let e = entry_of(half, img, b, i);
        insert_entry(half, img, a, m + i, e);
    }
}

// Page a has m entries and is to have k: the first of page b becomes its last, or its last becomes the first of page b. How many it has
// then.
fn move_one(half: usize, img: &mut [u8], a: u32, b: u32, m: usize, k: usize) -> usize
    requires { PreLevel half img.old (λ v. Movable half v a b m k) }
    ensures nearer { Nearer m k result }
    ensures shared { PostLevel half img.old (λ v. Movable half v a b m k)
        (λ v X. Encodes half img.new (shared v a b result X)) }
{
    if m < k {
        let e = entry_of(half, img, b, 0);
        insert_entry(half, img, a, m, e);
        remove_entry(half, img, b, 0);
        m + 1
    } else {
        let last = m - 1;
        let e = entry_of(half, img, a, last);
        remove_entry(half, img, a, last);
        insert_entry(half, img, b, 0, e);
        last
    }
}

// Page a has the first k of all entries from now on. A heal moves one; however many there are to move, and whichever way, the loop gets
// there: m rises or falls, so it is no range.
pub(crate) fn share(half: usize, img: &mut [u8], a: u32, b: u32, k: usize)
    requires { PreLevel half img.old (λ v. Sharable half v a b k) }
    ensures { PostLevel half img.old (λ v. Sharable half v a b k)
        (λ v X. Encodes half img.new (shared v a b k X)) }
{
    let mut m = entry_count_in(half, img, a);
    while m != k {
        m = move_one(half, img, a, b, m, k);
    }
}
