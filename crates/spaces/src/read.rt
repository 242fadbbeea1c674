// The texts of calls: a sign or letter and one number, or three with commas between them for a search.
ghost use Rattle.std.specs.Prelude.{◌≡◌, ℕ, ◌≤◌, List, ◌∷◌, ◌++◌, decimal, MatchOption, MatchResult};
ghost use Rattle.fault.specs.Causes.{alone};
ghost use Rattle.fault.specs.declared.Cause.TheVariants.{Malformed};
ghost use Rattle.spaces.specs.declared.call.Call.{Call as Calls};
ghost use Rattle.spaces.specs.Texts.{Spells};

use crate::call::Call;
use fault::{Cause, Fault};
use numeral::number::{number, number_before};

// The largest number that a call may have.
const MOST: u32 = 65535;

// The call with one number that a sign or letter stands for.
fn single(letter: u8, n: u32) -> Option<Call>
    ensures { MatchOption result ((c : Calls) → Spells (letter ∷ decimal n) c → ⊥) (λ c. n ≤ 65535 → Spells (letter ∷ decimal n) c) }
{
    let n = n as usize;
    match letter {
        b'+' => Some(Call::Take(n)),
        b'-' => Some(Call::Give(n)),
        b'o' => Some(Call::Open(n)),
        b'u' => Some(Call::Out(n)),
        b'b' => Some(Call::Busy(n)),
        _ => None,
    }
}

// The three numbers of a search, and the search that they ask for.
fn seek(numbers: &[u8]) -> Result<Call, Fault>
    ensures { MatchResult result
        (λ c. Spells (115 ∷ numbers.now) c)
        (λ f. (f ≡ alone Malformed) × ((c : Calls) → Spells (115 ∷ numbers.now) c → ⊥)) }
{
    let within = number_before(numbers, MOST, b',')?;
    let depth = number_before(within.rest, MOST, b',')?;
    let from = number(depth.rest, MOST)?;
    Ok(Call::Seek {
        within: within.value as usize,
        depth: depth.value as usize,
        from: from as usize,
    })
}

// The call that a text spells.
pub fn read_call(text: &[u8]) -> Result<Call, Fault>
    ensures { MatchResult result
        (λ c. Spells text.now c)
        (λ f. (f ≡ alone Malformed) × ((c : Calls) → Spells text.now c → ⊥)) }
{
    match text {
        [b's', numbers @ ..] => seek(numbers),
        [letter, rest @ ..] => {
            single(*letter, number(rest, MOST)?).ok_or(Fault::alone(Cause::Malformed))
        }
        [] => Err(Fault::alone(Cause::Malformed)),
    }
}
