// Which zero groups of an IPv6 address its text leaves out.
ghost use Rattle.std.specs.Prelude.{◌≡◌, ℕ, ◌+◌, ◌<◌, ◌≤◌, drop, MatchOption};
ghost use Rattle.address.specs.Canonical.{run, zeros, TwoZeros};

// Neighbouring groups, from `start` up to `end`.
#[derive(Clone, Copy, PartialEq, Eq, Debug)]
pub struct Run {
    pub start: usize,
    pub end: usize,
}

// Where the leftmost two zero groups begin.
fn leftmost_pair(groups: &[u16; 8]) -> Option<usize>
    ensures { MatchOption result
        ((k : ℕ) → k < 7 → ¬ TwoZeros groups.now k)
        (λ i. (i < 7) × TwoZeros groups.now i × ((k : ℕ) → k < i → ¬ TwoZeros groups.now k)) }
{
    groups.windows(2).position(|pair| matches!(pair, [0, 0]))
}

// How many zero groups these begin with.
fn leading_zeros(groups: &[u16]) -> usize
    ensures { result ≡ zeros groups.now }
{
    groups.iter().take_while(|g| **g == 0).count()
}

// The leftmost run of two or more zero groups, where there is one.
pub fn leftmost_run(groups: &[u16; 8]) -> Option<Run>
    ensures { MatchOption result
        (run groups.now ≡ 8)
        (λ r. (r.start ≡ run groups.now) × (r.start < 8)
        × (r.end ≡ r.start + zeros (drop r.start groups.now)) × (r.end ≤ 8)) }
{
    let start = leftmost_pair(groups)?;
    let end = start + leading_zeros(&groups[start..]);
    Some(Run { start, end })
}
