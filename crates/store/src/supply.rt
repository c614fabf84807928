// "Pages are taken from the chain's front, else at the high mark; given back to the front."
ghost use Rattle.std.specs.Prelude.{◌≡◌};
ghost use Rattle.steps.specs.Supply.{spare, taken, given_back};
ghost use Rattle.store.specs.Encoding.{Encodes, Pre, Post};
ghost use Rattle.store.specs.Preconditions.{Takable, Givable};

use super::heads::{head_of, set_head};
use super::pages::{next_free, set_free};
use page::Head;

// Takes a page. Its bytes stay: whoever takes it writes it.
pub fn take(half: usize, img: &mut [u8]) -> u32
    requires { Pre half img.old Takable }
    ensures { Post half img.old Takable (λ X. (result ≡ spare X) × Encodes half img.new (taken X)) }
{
    let h = head_of(half, img);
    if h.chain == 0 {
        set_head(
            img,
            Head {
                mark: h.mark + 1,
                ..h
            },
        );
        h.mark
    } else {
        let next = next_free(half, img, h.free);
        set_head(
            img,
            Head {
                free: next,
                chain: h.chain - 1,
                ..h
            },
        );
        h.free
    }
}

// Gives page p back: it is the chain's first now, and leads to the one that was.
pub fn give_back(half: usize, img: &mut [u8], p: u32)
    requires { Pre half img.old (Givable p) }
    ensures { Post half img.old (Givable p) (λ X. Encodes half img.new (given_back p X)) }
{
    let h = head_of(half, img);
    set_head(
        img,
        Head {
            free: p,
            chain: h.chain + 1,
            ..h
        },
    );
    set_free(half, img, p, h.free);
}
