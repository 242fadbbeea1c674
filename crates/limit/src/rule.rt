// The rule of a limit.
ghost use Rattle.std.specs.Prelude.{◌≡◌, ℕ, Bool};
ghost use Rattle.space.specs.Meaning.{Least};
ghost use Rattle.limit.specs.Limits.{may_follow};

use space::Space;

// A rule is asked about the space that it limits, and keeps no count of its own.
pub trait Rule {
    // Whether `allows` looks at the places out. Opening and taking ask such a rule after the space, any other before it.
    const LOOKS: bool = true;

    // Whether a place is allowed, for a depth and a set of places out.
    ghost test: { Self → ℕ → (ℕ → Bool) → ℕ → Bool };

    // Whether n may join the places out.
    fn allows<S: Space>(&self, space: &S, n: usize) -> bool
        ensures { result ≡ test self.now (S.meaning space.now).depth (S.meaning space.now).out n };

    // The first number of n's depth, from n on, that may join the places out.
    fn first<S: Space>(&self, space: &S, n: usize) -> Option<usize>
        ensures { Least result (may_follow (test self.now (S.meaning space.now).depth (S.meaning space.now).out) n) };
}
