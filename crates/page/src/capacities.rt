// The capacity of an image's pages, as its head names it. Document 02, (xi).
ghost use Rattle.std.specs.Prelude.{◌≡◌};
ghost use Rattle.page.specs.Layout.{capacity_ok, capacity_named};

// "The capacity K is an even number from 4 to 24".
pub const LEAST_CAPACITY: u32 = 4;

pub const MOST_CAPACITY: u32 = 24;

// A head without the field: FF FF FF FF.
pub const NO_FIELD: u32 = 4294967295;

// Whether pages may have this capacity.
pub fn capacity_ok(k: u32) -> bool
    ensures { result ≡ capacity_ok k }
{
    (k % 2 == 0) & (LEAST_CAPACITY..=MOST_CAPACITY).contains(&k)
}

// The capacity that a field names: "without the field (FF there) reads as K = 24".
pub fn capacity_named(field: u32) -> u32
    ensures { result ≡ capacity_named field }
{
    if field == NO_FIELD {
        MOST_CAPACITY
    } else {
        field
    }
}
