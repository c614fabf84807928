// The slots of a decoded page: an entry's numbers stand in four arrays.
ghost use Rattle.std.specs.Prelude.{◌≡◌, ◌<◌};
ghost use Rattle.page.specs.Decoded.{slot_at, with_slot};

use super::{Entry, Page};
use rule::Pair;

impl Page {
    // The entry at the i-th slot.
    pub fn entry(&self, i: usize) -> Entry
        requires { i < 25 }
        ensures { result ≡ slot_at self.now i }
    {
        let pair = Pair {
            sum: self.sums[i],
            count: self.counts[i],
        };
        Entry {
            start: self.starts[i],
            pair,
            child: self.children[i],
        }
    }

    // e at the i-th slot.
    pub fn set_entry(&mut self, i: usize, e: Entry)
        requires { i < 25 }
        ensures { self.new ≡ with_slot i e self.old }
    {
        self.starts[i] = e.start;
        self.sums[i] = e.pair.sum;
        self.counts[i] = e.pair.count;
        self.children[i] = e.child;
    }
}
