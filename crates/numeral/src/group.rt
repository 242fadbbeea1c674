// Groups of an IPv6 address: one to four hexadecimal digits of either case.
ghost use Rattle.std.specs.Prelude.{◌≡◌, ℕ, ◌≤◌, true, false, length, take, drop, MatchOption};
ghost use Rattle.numeral.specs.Groups.{Group, hexes, starts};

use crate::leading::Leading;

// How many hexadecimal digits begin a text.
fn count_digits(text: &[u8]) -> usize
    ensures count { result ≡ hexes text.now }
    ensures within { result ≤ length text.now }
{
    text.iter().take_while(|c| c.is_ascii_hexdigit()).count()
}

// The group that a text writes; none unless it is one to four hexadecimal digits.
fn value(ds: &[u8]) -> Option<u16>
    ensures { MatchOption result ((g : ℕ) → Group ds.now g → ⊥) (λ g. Group ds.now g) }
{
    if ds.is_empty() || ds.len() > 4 {
        return None;
    }
    let mut g = 0;
    for d in ds {
        g = g * 16 + char::from(*d).to_digit(16)? as u16;
    }
    Some(g)
}

// The group that begins a text, with all the digits that stand there.
pub fn leading_group(text: &[u8]) -> Option<Leading<'_, u16>>
    ensures { MatchOption result
        (starts text.now ≡ false)
        (λ g. (starts text.now ≡ true)
        × Group (take (hexes text.now) text.now) g.value
        × (g.rest.now ≡ drop (hexes text.now) text.now)) }
{
    let (digits, rest) = text.split_at(count_digits(text));
    let value = value(digits)?;
    Some(Leading { value, rest })
}
