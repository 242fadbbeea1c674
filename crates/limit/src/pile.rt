// Piles of limits, in either order, over any space.
ghost use Rattle.std.specs.Prelude.{◌≡◌};
ghost use Rattle.limit.specs.Limits.{limited, held_back, within_quota};

use crate::hold_back::HoldBack;
use crate::limited::Limited;
use crate::quota::Quota;
use crate::rule::Rule;
use space::Space;

// A space under `inner`, and that under `outer`.
pub fn pile<S: Space, A: Rule, B: Rule>(space: S, inner: A, outer: B) -> Limited<Limited<S, A>, B>
    ensures space { result.below.below ≡ space }
    ensures inner { result.below.rule ≡ inner }
    ensures outer { result.rule ≡ outer }
    ensures meaning { ⟦<Limited<Limited<S, A>, B> as Space>⟧.meaning result ≡ limited (limited (S.meaning space) (A.test inner (S.meaning space).depth)) (B.test outer (S.meaning space).depth) }
{
    Limited::new(Limited::new(space, inner), outer)
}

// A quota of `most` units over a hold-back of `held`.
pub fn quota_over_hold_back<S: Space>(
    space: S,
    most: u16,
    held: u16,
) -> Limited<Limited<S, HoldBack>, Quota>
    ensures space { result.below.below ≡ space }
    ensures meaning { ⟦<Limited<Limited<S, HoldBack>, Quota> as Space>⟧.meaning result ≡ within_quota (held_back (S.meaning space) held) most }
{
    pile(space, HoldBack::new(held), Quota::new(most))
}

// A hold-back of `held` over a quota of `most` units.
pub fn hold_back_over_quota<S: Space>(
    space: S,
    most: u16,
    held: u16,
) -> Limited<Limited<S, Quota>, HoldBack>
    ensures space { result.below.below ≡ space }
    ensures meaning { ⟦<Limited<Limited<S, Quota>, HoldBack> as Space>⟧.meaning result ≡ held_back (within_quota (S.meaning space) most) held }
{
    pile(space, Quota::new(most), HoldBack::new(held))
}
