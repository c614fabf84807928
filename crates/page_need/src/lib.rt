// How many pages the cuts of a change take, told from the image before anything is written.
// Document 01, "Turned back by the state", 24: "A and B together take more pages than chain and pages from the high mark hold".
#![tactic(auto)]

use std::ops::Add;

pub mod parts;
pub mod verdict;
pub mod walk;

// What cuts ask for from an entry down: how many entries its page gains, and how many pages are taken below.
#[derive(Clone, Copy)]
pub struct Need {
    pub adds: u32,
    pub pages: u32,
}

// What two cuts ask for together.
impl Add for Need {
    type Output = Need;

    ghost use Rattle.std.specs.Prelude.{◌≡◌};
    ghost use Rattle.page_need.specs.Needs.{add_needs};
    ghost use Rattle.page_need.specs.Leads.{Small};

    ghost can_add = { λ a b. Small a × Small b };

    ghost add_gives = { λ a b both. both ≡ add_needs a b };

    fn add(self, other: Need) -> Need {
        Need {
            adds: self.adds + other.adds,
            pages: self.pages + other.pages,
        }
    }
}
