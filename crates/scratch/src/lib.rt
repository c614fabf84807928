// The scratch that audits and changes borrow from their caller, by document 02, (vi), a bit for each page: how many bytes that makes, and
// that they are 0 afterwards. Nothing reads it.
#![tactic(auto)]

ghost use Rattle.std.specs.Prelude.{◌≡◌, true, ◌≤◌};
ghost use Rattle.image.specs.Images.{pages_in};
ghost use Rattle.calls.specs.Refusals.{borrowed, scratch_ok, cleared};

use access::lengths::page_count;
use fields::fill::fill;

// (vi): "n/8 bytes, rounded up"
fn borrowed(half: usize, img: &[u8]) -> usize
    requires { half ≤ 12 }
    ensures { result ≡ borrowed (pages_in half img.now) }
{
    page_count(half, img).div_ceil(8)
}

// 17: whether the scratch is as long as that.
pub fn scratch_ok(half: usize, img: &[u8], scratch: &[u8]) -> bool
    requires { half ≤ 12 }
    ensures { result ≡ scratch_ok borrowed (pages_in half img.now) scratch.now }
{
    borrowed(half, img) <= scratch.len()
}

// (vi): "those bytes are 0 afterwards"; bytes beyond keep theirs.
pub fn clear_scratch(half: usize, img: &[u8], scratch: &mut [u8])
    requires half_bound { half ≤ 12 }
    requires scratch_value { scratch_ok borrowed (pages_in half img.now) scratch.old ≡ true }
    ensures { scratch.new ≡ cleared borrowed (pages_in half img.now) scratch.old }
{
    fill(scratch, 0, borrowed(half, img), 0)
}
