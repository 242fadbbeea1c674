// IPv4 addresses in text: four octets in decimal, joined by dots.
ghost use Rattle.std.specs.Prelude.{◌≡◌, ℕ, ◌≤◌, List, ◌∷◌, ◌++◌, decimal, MatchResult, ◌≢◌, slice_index};
ghost use Rattle.fault.specs.Causes.{alone};
ghost use Rattle.fault.specs.declared.Cause.TheVariants.{Malformed};
ghost use Rattle.address.specs.Dotted.{Dotted, quad};

use fault::Fault;
use numeral::draft::Draft;
use numeral::leading::Leading;
use numeral::number::{number, number_before};

// The octet that begins a text with a dot behind it, and what follows that dot.
fn octet(text: &[u8]) -> Result<Leading<'_, u32>, Fault>
    ensures { MatchResult result
        (λ x. (x.value ≤ 255) × (text.now ≡ decimal x.value ++ (46 ∷ x.rest.now)))
        (λ f. (f ≡ alone Malformed) × ((n : ℕ) (rest : List ℕ) → n ≤ 255 → text.now ≢ decimal n ++ (46 ∷ rest))) }
{
    number_before(text, 255, b'.')
}

// The address that a whole text writes.
fn value(text: &[u8]) -> Result<u32, Fault>
    ensures { MatchResult result
        (λ n. Dotted text.now n)
        (λ f. (f ≡ alone Malformed) × ((n : ℕ) → Dotted text.now n → ⊥)) }
{
    let a = octet(text)?;
    let b = octet(a.rest)?;
    let c = octet(b.rest)?;
    let d = number(c.rest, 255)?;
    Ok(((a.value * 256 + b.value) * 256 + c.value) * 256 + d)
}

// Reads a whole text into a lent address, which a refusal leaves as it was.
pub fn read(text: &[u8], into: &mut u32) -> Result<(), Fault>
    ensures { MatchResult result
        (λ _. Dotted text.now into.new)
        (λ f. (f ≡ alone Malformed) × (into.new ≡ into.old) × ((n : ℕ) → Dotted text.now n → ⊥)) }
{
    *into = value(text)?;
    Ok(())
}

// Four octets in decimal, joined by dots.
fn joined(octets: [u8; 4]) -> Draft
    ensures { result ≡ decimal (slice_index octets 0) ++ (46 ∷ (decimal (slice_index octets 1) ++ (46 ∷ (decimal (slice_index octets 2) ++ (46 ∷ decimal (slice_index octets 3)))))) }
{
    let [a, b, c, d] = octets;
    let mut draft = Draft::new();
    draft.decimal(a);
    draft.push(b'.');
    draft.decimal(b);
    draft.push(b'.');
    draft.decimal(c);
    draft.push(b'.');
    draft.decimal(d);
    draft
}

// The text of an address.
pub fn write(address: u32) -> Draft
    ensures { result ≡ quad address }
{
    joined(address.to_be_bytes())
}
