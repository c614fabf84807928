// A number at an offset of a slice: "Numbers are little-endian." The types of a page's numbers are one trait: each reads and writes its
// bytes by the library, which the compiler makes one load and one store.
ghost use Rattle.std.specs.Prelude.{◌≡◌, ℕ, ◌+◌, ◌≤◌, ◌<◌, ◌^◌, List, length, refl};
ghost use Rattle.std.specs.Int.{w32, w64};
ghost use Rattle.std.specs.Int.RustNames.{FitsSigned};
ghost use Rattle.std.proofs.Common.{arith, ap, ◌∙◌, to_z, of_z, to_z-of_z};
ghost use Rattle.std.proofs.Math.Facts.{Fits-of_z};
ghost use Rattle.fields.specs.Bytes.{part, patch};
ghost use Rattle.fields.specs.Numbers.{num, digits, u32_at, i32_at, i64_at, u32_bytes, i32_bytes, i64_bytes};

pub trait Field: Copy {
    // how many bytes it has
    ghost SIZE: { ℕ };

    const SIZE: usize;

    // the number at an offset
    ghost at: { List ℕ → ℕ → Self };

    // the number that bytes show
    ghost shown: { List ℕ → Self };

    // a number's bytes
    ghost bytes: { Self → List ℕ };

    // which numbers have that many bytes
    ghost fits: { Self → Type 0 };

    // The number at offset o.
    fn read_at(s: &[u8], o: usize) -> Self
        requires { o + SIZE ≤ length s.now }
        ensures { result ≡ at s.now o };

    // Writes the number at offset o.
    fn write_at(self, s: &mut [u8], o: usize)
        requires { o + SIZE ≤ length s.old }
        ensures { s.new ≡ patch s.old o (bytes self) };

    // the number at an offset is what the bytes there show
    ghost at_part: { (s : List ℕ) (o : ℕ) → at s o ≡ shown (part s o SIZE) };

    ghost length_bytes: { (x : Self) → length (bytes x) ≡ SIZE };

    // a number's bytes show it
    ghost shown_bytes: { (x : Self) → fits x → shown (bytes x) ≡ x };
}

// The N bytes at offset o. A chunk of a slice of that length is read by one load; `copy_from_slice` would ask of each load whether it
// overlaps what it writes.
fn bytes_at<const N: usize>(s: &[u8], o: usize) -> [u8; N]
    requires { o + N ≤ length s.now }
    ensures { result ≡ part s.now o N }
{
    *s[o..o + N].first_chunk().unwrap()
}

// Puts bytes at offset o.
fn put_bytes(s: &mut [u8], o: usize, bytes: &[u8])
    requires { o + length bytes.now ≤ length s.old }
    ensures { s.new ≡ patch s.old o bytes.now }
{
    s[o..o + bytes.len()].copy_from_slice(bytes);
}

impl Field for u32 {
    ghost SIZE = { 4 };

    const SIZE: usize = 4;

    ghost at = { u32_at };

    ghost shown = { num };

    ghost bytes = { u32_bytes };

    ghost fits = { λ v. v < 2 ^ 32 };

    fn read_at(s: &[u8], o: usize) -> u32 {
        u32::from_le_bytes(bytes_at(s, o))
    }

    fn write_at(self, s: &mut [u8], o: usize) {
        put_bytes(s, o, &u32::to_le_bytes(self))
    }

    ghost at_part = { λ s o. unfold u32_at in refl };

    ghost length_bytes = { λ v. unfold u32_bytes digits in refl };

    ghost shown_bytes = { λ v h. unfold u32_bytes digits num in Prim.omega arith };
}

impl Field for u64 {
    ghost SIZE = { 8 };

    const SIZE: usize = 8;

    ghost at = { λ s o. num (part s o 8) };

    ghost shown = { num };

    ghost bytes = { digits 8 };

    ghost fits = { λ v. v < 2 ^ 64 };

    fn read_at(s: &[u8], o: usize) -> u64 {
        u64::from_le_bytes(bytes_at(s, o))
    }

    fn write_at(self, s: &mut [u8], o: usize) {
        put_bytes(s, o, &u64::to_le_bytes(self))
    }

    ghost at_part = { λ s o. refl };

    ghost length_bytes = { λ v. unfold digits in refl };

    ghost shown_bytes = { λ v h. unfold digits num in Prim.omega arith };
}

impl Field for i32 {
    ghost SIZE = { 4 };

    const SIZE: usize = 4;

    ghost at = { i32_at };

    ghost shown = { λ bytes. to_z w32 (num bytes) };

    ghost bytes = { i32_bytes };

    ghost fits = { FitsSigned w32 };

    fn read_at(s: &[u8], o: usize) -> i32 {
        i32::from_le_bytes(bytes_at(s, o))
    }

    fn write_at(self, s: &mut [u8], o: usize) {
        put_bytes(s, o, &i32::to_le_bytes(self))
    }

    ghost at_part = { λ s o. unfold i32_at in refl };

    ghost length_bytes = { λ z. unfold i32_bytes digits in refl };

    ghost shown_bytes = { λ z h. unfold i32_bytes digits num in ap (to_z w32) (Prim.omega (arith, Fits-of_z h)) ∙ to_z-of_z h };
}

impl Field for i64 {
    ghost SIZE = { 8 };

    const SIZE: usize = 8;

    ghost at = { i64_at };

    ghost shown = { λ bytes. to_z w64 (num bytes) };

    ghost bytes = { i64_bytes };

    ghost fits = { FitsSigned w64 };

    fn read_at(s: &[u8], o: usize) -> i64 {
        i64::from_le_bytes(bytes_at(s, o))
    }

    fn write_at(self, s: &mut [u8], o: usize) {
        put_bytes(s, o, &i64::to_le_bytes(self))
    }

    ghost at_part = { λ s o. unfold i64_at in refl };

    ghost length_bytes = { λ z. unfold i64_bytes digits in refl };

    ghost shown_bytes = { λ z h. unfold i64_bytes digits num in ap (to_z w64) (Prim.omega (arith, Fits-of_z h)) ∙ to_z-of_z h };
}
