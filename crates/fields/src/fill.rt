// Runs of one byte: the test for unused bytes, and the filling of a run.
ghost use Rattle.std.specs.Prelude.{◌≡◌, ◌+◌, ◌*◌, ◌≤◌, length, replicate};
ghost use Rattle.fields.specs.Bytes.{part, patch, all_are};

use crate::word::Word;

// "Unused bytes are FF (hexadecimal)."
pub const UNUSED_BYTE: u8 = 255;

// Whether the k words from offset a on are all FF. No exit in the loop, and one `and` a word with one comparison at the end: many words
// are tested at once, and with words of eight bytes no tail of single bytes is left (15% of an instant or of an audit of full pages).
pub fn words_ff<W: Word>(s: &[u8], a: usize, k: usize) -> bool
    requires { a + W.SIZE * k ≤ length s.now }
    ensures { result ≡ all_are 255 (part s.now a (W.SIZE * k)) }
{
    let mut all = W::ones();
    for i in 0..k {
        all = all.and_at(s, a + W::SIZE * i);
    }
    all.is_ones()
}

// Words in a block: 512 bytes.
const BLOCK: usize = 64;

// The same of many words: by blocks, whose loop the compiler writes out in full since their length is known, then what is left.
pub fn blocks_ff(s: &[u8], a: usize, k: usize) -> bool
    requires { a + 8 * k ≤ length s.now }
    ensures { result ≡ all_are 255 (part s.now a (8 * k)) }
{
    let blocks = k / BLOCK;
    let mut ok = true;
    for i in 0..blocks {
        ok &= words_ff::<u64>(s, a + 8 * BLOCK * i, BLOCK);
    }
    ok & words_ff::<u64>(s, a + 8 * BLOCK * blocks, k % BLOCK)
}

// The same of n single bytes.
fn bytes_ff(s: &[u8], a: usize, n: usize) -> bool
    requires { a + n ≤ length s.now }
    ensures { result ≡ all_are 255 (part s.now a n) }
{
    let mut ok = true;
    for i in 0..n {
        ok &= s[a + i] == UNUSED_BYTE;
    }
    ok
}

// Whether the n bytes from offset a on are all FF: by words of four, then what is left. Every caller has whole words, and the compiler
// drops the rest. Words of eight would be no faster over a run as long as the head's, whose loop the compiler then writes out in full:
// too long to stand in the callers (8 ns of an instant).
pub fn all_ff(s: &[u8], a: usize, n: usize) -> bool
    requires { a + n ≤ length s.now }
    ensures { result ≡ all_are 255 (part s.now a n) }
{
    let k = n / 4;
    words_ff::<u32>(s, a, k) & bytes_ff(s, a + 4 * k, n % 4)
}

// Writes the byte b at the n offsets from a on. A loop is one call that sets memory; the slice's own `fill` would write the last byte
// apart.
pub fn fill(s: &mut [u8], a: usize, n: usize, b: u8)
    requires { a + n ≤ length s.old }
    ensures { s.new ≡ patch s.old a (replicate n b) }
{
    for k in 0..n {
        s[a + k] = b;
    }
}
