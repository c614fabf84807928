// Search in a page, from its late end: most instants that are asked for lie in the latest days.
ghost use Rattle.lookup.specs.Levels.{PageSearchable, IndexFound, EntryFound};

use super::FoundAt;
use fit::contexts::end_at;
use page::at::start_at;

// The index of the last entry starting at t or before. The last start is compared first: the later t is, the more of the pages
// on its path end the search there. Else the search goes back over all starts and counts those after t. It counts without an
// exit, so that many are compared at once and the processor needn't foresee where t lies.
fn find_index(s: &[u8], n: usize, t: u32) -> usize
    requires { PageSearchable s.now n t }
    ensures { IndexFound t s.now result }
{
    if start_at(s, n - 1) <= t {
        return n - 1;
    }
    let mut later: u32 = 0;
    for i in (0..n).rev() {
        if t < start_at(s, i) {
            later += 1;
        }
    }
    n - 1 - later as usize
}

// The last entry starting at t or before, in a page that ends at hi: its index and its end.
pub fn find(s: &[u8], n: usize, hi: u32, t: u32) -> FoundAt
    requires { PageSearchable s.now n t }
    ensures { EntryFound hi t s.now result }
{
    let i = find_index(s, n, t);
    FoundAt {
        index: i,
        end: end_at(s, hi, i),
    }
}
