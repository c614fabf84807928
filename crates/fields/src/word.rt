// A word of a run of bytes that is tested for FF with many others at once: by their `and`, which has ones alone where each has.
ghost use Rattle.std.specs.Prelude.{◌≡◌, ◌+◌, ◌≤◌, length, Bool, true, ◌&&◌, nat_eq};
ghost use Rattle.fields.specs.Bytes.{part, all_are};

use crate::field::Field;

pub trait Word: Field {
    // whether all bits are ones
    ghost all_ones: { Self → Bool };

    // The word whose bits are ones.
    fn ones() -> Self
        ensures { all_ones result ≡ true };

    // The bits that are ones in this word and in the one at offset o.
    fn and_at(self, s: &[u8], o: usize) -> Self
        requires { o + Self.SIZE ≤ length s.now }
        ensures { all_ones result ≡ (all_ones self && all_are 255 (part s.now o Self.SIZE)) };

    // Whether all bits are ones.
    fn is_ones(self) -> bool
        ensures { result ≡ all_ones self };
}

impl Word for u32 {
    ghost all_ones = { λ w. nat_eq w 4294967295 };

    fn ones() -> u32 {
        u32::MAX
    }

    fn and_at(self, s: &[u8], o: usize) -> u32 {
        self & u32::read_at(s, o)
    }

    fn is_ones(self) -> bool {
        self == u32::MAX
    }
}

impl Word for u64 {
    ghost all_ones = { λ w. nat_eq w 18446744073709551615 };

    fn ones() -> u64 {
        u64::MAX
    }

    fn and_at(self, s: &[u8], o: usize) -> u64 {
        self & u64::read_at(s, o)
    }

    fn is_ones(self) -> bool {
        self == u64::MAX
    }
}
