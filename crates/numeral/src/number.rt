// Decimal numbers: one or more digits, no idle zero in front, at most a limit that the caller names.
ghost use Rattle.std.specs.Prelude.{◌≡◌, ℕ, ◌<◌, ◌≤◌, T, List, ◌∷◌, length, decimal, MatchOption, MatchResult, ◌≢◌};
ghost use Rattle.fault.specs.Causes.{alone};
ghost use Rattle.fault.specs.declared.Cause.TheVariants.{Malformed};
ghost use Rattle.numeral.specs.Numbers.{Digits, Lean, Begins, decimals, value_on};

use crate::leading::Leading;
use fault::{Cause, Fault};

// How many digits begin a text.
fn count_digits(text: &[u8]) -> usize
    ensures count { result ≡ decimals text.now }
    ensures within { result ≤ length text.now }
{
    text.iter().take_while(|c| c.is_ascii_digit()).count()
}

// Whether digits have the form of a number: at least one, and no idle zero in front.
fn is_lean(ds: &[u8]) -> bool
    ensures yes { T result → Lean ds.now }
    ensures no { Lean ds.now → T result }
{
    match ds {
        [] | [b'0', _, ..] => false,
        _ => true,
    }
}

// The number that digits write, unless it is above the limit. It stops at the first digit that
// passes the limit, so that no count of digits overflows.
fn sum(ds: &[u8], limit: u32) -> Option<u32>
    requires { Digits ds.now }
    ensures { MatchOption result (limit < value_on 0 ds.now) (λ n. (n ≡ value_on 0 ds.now) × (n ≤ limit)) }
{
    let most = u64::from(limit);
    let mut n = 0u64;
    for d in ds {
        n = n * 10 + u64::from(*d - b'0');
        if n > most {
            return None;
        }
    }
    Some(n as u32)
}

// The number that digits write; none where they have an idle zero or pass the limit.
fn value(ds: &[u8], limit: u32) -> Option<u32>
    requires { Digits ds.now }
    ensures { MatchOption result ((n : ℕ) → n ≤ limit → ds.now ≢ decimal n) (λ n. (n ≤ limit) × (ds.now ≡ decimal n)) }
{
    if is_lean(ds) { sum(ds, limit) } else { None }
}

// The number that begins a text, with all the digits that stand there.
pub fn leading_number(text: &[u8], limit: u32) -> Result<Leading<'_, u32>, Fault>
    ensures { MatchResult result
        (λ x. Begins limit text.now x.value x.rest.now)
        (λ f. (f ≡ alone Malformed) × ((n : ℕ) (rest : List ℕ) → Begins limit text.now n rest → ⊥)) }
{
    let (digits, rest) = text.split_at(count_digits(text));
    let value = value(digits, limit).ok_or(Fault::alone(Cause::Malformed))?;
    Ok(Leading { value, rest })
}

// The number that a whole text writes.
pub fn number(text: &[u8], limit: u32) -> Result<u32, Fault>
    ensures { MatchResult result
        (λ n. (n ≤ limit) × (text.now ≡ decimal n))
        (λ f. (f ≡ alone Malformed) × ((n : ℕ) → n ≤ limit → text.now ≢ decimal n)) }
{
    match leading_number(text, limit)? {
        Leading { value, rest: [] } => Ok(value),
        _ => Err(Fault::alone(Cause::Malformed)),
    }
}

// The number that begins a text with the byte `stop` behind it, and what follows that byte.
pub fn number_before(text: &[u8], limit: u32, stop: u8) -> Result<Leading<'_, u32>, Fault>
    ensures { MatchResult result
        (λ x. Begins limit text.now x.value (stop ∷ x.rest.now))
        (λ f. (f ≡ alone Malformed) × ((n : ℕ) (rest : List ℕ) → Begins limit text.now n (stop ∷ rest) → ⊥)) }
{
    let number = leading_number(text, limit)?;
    match number.rest {
        [first, rest @ ..] if *first == stop => Ok(Leading { rest, ..number }),
        _ => Err(Fault::alone(Cause::Malformed)),
    }
}
