// Comparisons as 64 bits whose top one tells: it is clear where the comparison holds. Many of them are one test by `or`, and the
// machine has additions, differences and `or` of two such numbers at once, but no comparison.
ghost use Rattle.std.specs.Prelude.{◌≡◌, ◌^◌, ◌<◌, ◌≤◌, nat_le, unsigned_abs};
ghost use Rattle.std.specs.Int.{w64};
ghost use Rattle.std.proofs.Common.{to_z};
ghost use Rattle.rule.specs.Bounds.{top_clear};

// The least number whose top bit is set.
pub const TOP_BIT: u64 = 9223372036854775808;

// Top bit clear where a is at most b.
pub fn at_most(a: u64, b: u64) -> u64
    requires { (a ≤ 2 ^ 63) × (b < 2 ^ 63) }
    ensures { top_clear result ≡ nat_le a b }
{
    b.wrapping_sub(a)
}

// Top bit clear where the number that the bits x are lies in -b to b: neither x + b nor b - x is below zero.
pub fn within(x: u64, b: u64) -> u64
    requires { b < 2 ^ 62 }
    ensures { top_clear result ≡ nat_le (unsigned_abs (to_z w64 x)) b }
{
    x.wrapping_add(b) | b.wrapping_sub(x)
}
