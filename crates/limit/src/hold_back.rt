// A hold-back: a rule that never grants one place, nor whatever overlaps it.
ghost use Rattle.std.specs.Prelude.{◌≡◌, ◌≢◌, ◌+◌, not, MatchOption};
ghost use Rattle.space.specs.Places.{overlap, depth_of};
ghost use Rattle.space.specs.Meaning.{Meaning};
ghost use Rattle.limit.specs.Limits.{limited, held_back};

use crate::rule::Rule;
use space::Space;
use space::places::{depth_of, overlaps};

// Holds back nothing where `held` is 0, which is no place.
#[derive(Drop)]
pub struct HoldBack {
    held: u16,
}

impl HoldBack {
    pub fn new(held: u16) -> HoldBack
        ensures held { result.held ≡ held }
        ensures rule { (m : Meaning) → limited m (⟦<HoldBack as Rule>⟧.test result m.depth) ≡ held_back m held }
    {
        HoldBack { held }
    }
}

// The place after n, where it is of n's depth.
fn beside(n: usize) -> Option<usize>
    ensures { MatchOption result (depth_of (n + 1) ≢ depth_of n) (λ next. (next ≡ n + 1) × (depth_of next ≡ depth_of n)) }
{
    let next = n.checked_add(1)?;
    (depth_of(next) == depth_of(n)).then_some(next)
}

impl Rule for HoldBack {
    const LOOKS: bool = false;

    ghost test = { λ s depth set n. not (overlap n s.held) };

    fn allows<S: Space>(&self, _space: &S, n: usize) -> bool {
        !overlaps(n, usize::from(self.held))
    }

    // `top` is the held place where n lies in it, else n. Places of n's depth in `top` are held back; those beside it
    // are not.
    fn first<S: Space>(&self, space: &S, n: usize) -> Option<usize> {
        if self.allows(space, n) {
            return Some(n);
        }
        let halvings = depth_of(n).saturating_sub(depth_of(usize::from(self.held)));
        let top = n >> halvings;
        Some(beside(top)? << halvings)
    }
}
