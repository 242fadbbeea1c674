// Where the address of a prefix's text ends.
ghost use Rattle.std.specs.Prelude.{◌≡◌, ◌+◌, ◌<◌, ◌∷◌, ◌++◌, length, take, drop, MatchOption, slice_index};
ghost use Rattle.std.specs.Str.Iter.{LacksByte};

// The index of the last slash. Only the length stands behind it, so few bytes are looked at.
pub fn last_slash(text: &[u8]) -> Option<usize>
    ensures { MatchOption result
        (LacksByte 47 text.now)
        (λ i. (i < length text.now) × (slice_index text.now i ≡ 47) × (text.now ≡ take i text.now ++ (47 ∷ drop (i + 1) text.now)) × LacksByte 47 (drop (i + 1) text.now)) }
{
    text.iter().rposition(|b| *b == b'/')
}
