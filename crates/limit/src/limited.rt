// A limit: a space held by value, which grants a place where that space does and a rule of the limit's own allows it.
ghost use Rattle.std.specs.Prelude.{◌≡◌};
ghost use Rattle.limit.specs.Limits.{limited, limited_sound};

use crate::rule::Rule;
use space::Space;

#[derive(Drop)]
pub struct Limited<S, R> {
    below: S,
    rule: R,
}

impl<S, R> Limited<S, R> {
    pub fn new(below: S, rule: R) -> Limited<S, R>
        ensures below { result.below ≡ below }
        ensures rule { result.rule ≡ rule }
    {
        Limited { below, rule }
    }
}

impl<S: Space, R: Rule> Space for Limited<S, R> {
    ghost meaning = { λ s. limited (S.meaning s.below) (R.test s.rule (S.meaning s.below).depth) };

    ghost sound = { λ s. limited_sound (S.meaning s.below) (R.test s.rule (S.meaning s.below).depth) (S.sound s.below) };

    fn depth(&self) -> usize {
        self.below.depth()
    }

    fn open(&self, n: usize) -> bool {
        if R::LOOKS {
            self.below.open(n) && self.rule.allows(&self.below, n)
        } else {
            self.rule.allows(&self.below, n) && self.below.open(n)
        }
    }

    fn out(&self, n: usize) -> bool {
        self.below.out(n)
    }

    fn busy(&self, w: usize) -> bool {
        self.below.busy(w)
    }

    // Where the rule refuses the first find, the search goes on at the next number that the rule allows.
    fn seek(&self, w: usize, d: usize, f: usize) -> Option<usize> {
        let mut from = f;
        loop {
            let found = self.below.seek(w, d, from)?;
            let allowed = self.rule.first(&self.below, found)?;
            if allowed == found {
                return Some(found);
            }
            from = allowed;
        }
    }

    // The take below asks whether n is open there. Only where the rule looks is that asked before.
    fn take(&mut self, n: usize) -> bool {
        if R::LOOKS {
            self.open(n) && self.below.take(n)
        } else {
            self.rule.allows(&self.below, n) && self.below.take(n)
        }
    }

    fn give(&mut self, n: usize) -> bool {
        self.below.give(n)
    }
}
