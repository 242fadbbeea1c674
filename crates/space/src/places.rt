// Places as numbers: how deep one lies, and which lie in which.
ghost use Rattle.std.specs.Prelude.{◌≡◌, ℕ, ◌+◌, ◌*◌, ◌/◌, ◌^◌, ◌<◌, ◌≤◌, ◌⊎◌, true, false, MatchOption};
ghost use Rattle.space.specs.Places.{lies, overlap, is_place, depth_of, size};

use std::ops::Range;

// The depth of a place: its number of binary digits less one.
pub fn depth_of(n: usize) -> usize
    ensures value { result ≡ depth_of n }
    ensures bound { result < 64 }
{
    n.checked_ilog2().unwrap_or(0) as usize
}

// Whether n is a place of a tree of that depth.
pub fn is_place(depth: usize, n: usize) -> bool
    ensures { result ≡ is_place depth n }
{
    n > 0 && depth_of(n) <= depth
}

// The places of depth d that lie in w. Past depth 62 the last one's successor might not fit its type.
pub fn places_at(w: usize, d: usize) -> Option<Range<usize>>
    ensures { MatchOption result ((w ≡ 0) ⊎ ((d < depth_of w) ⊎ (62 < d)))
        (λ r. (0 < w) × (depth_of w ≤ d) × (d ≤ 62) × (r.start ≡ w * size d w) × (r.end ≡ (w + 1) * size d w)) }
{
    let down = d.checked_sub(depth_of(w))?;
    if w == 0 || d > 62 {
        return None;
    }
    Some(w << down..(w + 1) << down)
}

// How often n is halved until it is m, where n lies in m.
pub fn halvings(n: usize, m: usize) -> Option<usize>
    ensures { MatchOption result (lies n m ≡ false) (λ k. (0 < m) × (n / 2 ^ k ≡ m)) }
{
    let k = depth_of(n).checked_sub(depth_of(m))?;
    (m > 0 && n >> k == m).then_some(k)
}

// Whether n lies in m, which is that some number of halvings of n gives m.
pub fn lies_in(n: usize, m: usize) -> bool
    ensures value { result ≡ lies n m }
    ensures halved { result ≡ true → (0 < m) × ((k : ℕ) × (n / 2 ^ k ≡ m)) }
    ensures halving { (k : ℕ) → 0 < m → n / 2 ^ k ≡ m → result ≡ true }
{
    halvings(n, m).is_some()
}

// Whether one of the two lies in the other.
pub fn overlaps(n: usize, m: usize) -> bool
    ensures { result ≡ overlap n m }
{
    lies_in(n, m) || lies_in(m, n)
}
