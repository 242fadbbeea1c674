// A quota: a rule by which the places out never have more units together than a given number.
ghost use Rattle.std.specs.Prelude.{◌≡◌, ◌+◌, ◌^◌, ◌<◌, ◌≤◌, nat_le};
ghost use Rattle.space.specs.Places.{size, units, depth_of};
ghost use Rattle.space.specs.Meaning.{Meaning};
ghost use Rattle.limit.specs.Limits.{limited, within_quota};
ghost use Rattle.limit.specs.Walk.{sum_under, units_at};

use crate::rule::Rule;
use space::Space;
use space::places::depth_of;

#[derive(Drop)]
pub struct Quota {
    most: u16,
}

impl Quota {
    pub fn new(most: u16) -> Quota
        ensures most { result.most ≡ most }
        ensures rule { (m : Meaning) → limited m (⟦<Quota as Rule>⟧.test result m.depth) ≡ within_quota m most }
    {
        Quota { most }
    }
}

// The units of the places out that lie in n, a place of 2^h units. Only where something is out it goes deeper.
fn count<S: Space>(space: &S, n: usize, h: usize) -> usize
    requires above { 0 < n }
    requires low { n < 2 ^ 13 }
    requires height { depth_of n + h ≡ (S.meaning space.now).depth }
    ensures value { result ≡ sum_under h (units_at (S.meaning space.now).depth (S.meaning space.now).out) n }
    ensures bound { result ≤ 2 ^ h }
{
    if space.out(n) {
        return 1usize << h;
    }
    if h == 0 || !space.busy(n) {
        return 0;
    }
    count(space, 2 * n, h - 1) + count(space, 2 * n + 1, h - 1)
}

// The units of all places out.
pub fn used<S: Space>(space: &S) -> usize
    ensures value { result ≡ units (S.meaning space.now).depth (S.meaning space.now).out }
    ensures bound { result ≤ 4096 }
{
    count(space, 1, space.depth())
}

impl Rule for Quota {
    ghost test = { λ s depth set n. nat_le (units depth set + size depth n) s.most };

    fn allows<S: Space>(&self, space: &S, n: usize) -> bool {
        let size = 1usize << space.depth().saturating_sub(depth_of(n));
        used(space) + size <= usize::from(self.most)
    }

    // All places of one depth have one size, so the quota has room for all of them or for none.
    fn first<S: Space>(&self, space: &S, n: usize) -> Option<usize> {
        self.allows(space, n).then_some(n)
    }
}
