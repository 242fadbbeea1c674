// Prefixes and addresses to and from text, for any family.
ghost use Rattle.std.specs.Prelude.{◌≡◌, ℕ, ◌+◌, ◌<◌, length, MatchResult};
ghost use Rattle.fault.specs.Causes.{alone};
ghost use Rattle.fault.specs.declared.Cause.TheVariants.{Malformed};
ghost use Rattle.numeral.specs.Drafts.{Wrote};
ghost use Rattle.prefix.specs.Form.{block};
ghost use Rattle.text.specs.Texts.{PrefixText, Refused, prefix_text};

use crate::family::TextFamily;
use crate::slash::last_slash;
use fault::{Cause, Fault};
use numeral::draft::Draft;
use numeral::number::number;

// The largest number that a text may have as a length.
const LARGEST: u32 = 65535;

// Reads a whole text as an address, into a lent place, and a length: bare numbers, which need not
// make a prefix.
fn read_parts<F: TextFamily>(text: &[u8], into: &mut F::Address) -> Result<u32, Fault>
    ensures { MatchResult result
        (λ l. PrefixText F.spelt text.now (F.form.number into.new) l)
        (λ f. (f ≡ alone Malformed) × ((n l : ℕ) → PrefixText F.spelt text.now n l → ⊥)) }
{
    let Some(slash) = last_slash(text) else {
        return Err(Fault::alone(Cause::Malformed));
    };
    let length = number(&text[slash + 1..], LARGEST)?;
    F::read_address(&text[..slash], into)?;
    Ok(length)
}

// Reads a whole text as a prefix into a lent place.
pub fn read_prefix<F: TextFamily>(text: &[u8], into: &mut F::Prefix) -> Result<(), Fault>
    ensures { MatchResult result
        (λ _. PrefixText F.spelt text.now (F.form.first into.new) (F.form.length into.new))
        (λ f. Refused F.spelt F.WIDTH text.now f × (into.new ≡ into.old)) }
{
    // Any address will do to be lent: it is overwritten before it is used.
    let mut address = F::first(into);
    let length = read_parts::<F>(text, &mut address)?;
    F::make(address, length, into)
}

// The text of a prefix, as a draft.
fn draft_prefix<F: TextFamily>(p: &F::Prefix) -> Draft
    ensures { result ≡ prefix_text F.written (block F.form p.now) }
{
    let mut draft = F::draft(F::first(p));
    draft.push(b'/');
    draft.decimal(F::length(p));
    draft
}

// Writes a prefix to the front of lent memory.
pub fn write_prefix<F: TextFamily>(p: &F::Prefix, memory: &mut [u8]) -> Result<usize, Fault>
    ensures { Wrote (prefix_text F.written (block F.form p.now)) memory.old memory.new result }
{
    draft_prefix::<F>(p).copy_to(memory)
}

// Writes an address to the front of lent memory.
pub fn write_address<F: TextFamily>(address: F::Address, memory: &mut [u8]) -> Result<usize, Fault>
    ensures wrote { Wrote (F.written (F.form.number address)) memory.old memory.new result }
    ensures real { F.real address }
{
    F::draft(address).copy_to(memory)
}

// Writes a prefix to lent memory and reads it back from there: reading undoes writing.
pub fn reread_prefix<F: TextFamily>(
    p: &F::Prefix,
    memory: &mut [u8],
    into: &mut F::Prefix,
) -> Result<usize, Fault>
    ensures wrote { Wrote (prefix_text F.written (block F.form p.now)) memory.old memory.new result }
    ensures back { MatchResult result (λ _. into.new ≡ p.now) (λ _. into.new ≡ into.old) }
{
    let n = write_prefix::<F>(p, memory)?;
    read_prefix::<F>(&memory[..n], into)?;
    Ok(n)
}

// Writes an address to lent memory and reads it back from there: reading undoes writing.
pub fn reread_address<F: TextFamily>(
    address: F::Address,
    memory: &mut [u8],
    into: &mut F::Address,
) -> Result<usize, Fault>
    ensures wrote { Wrote (F.written (F.form.number address)) memory.old memory.new result }
    ensures back { MatchResult result (λ _. into.new ≡ address) (λ _. into.new ≡ into.old) }
{
    let n = write_address::<F>(address, memory)?;
    F::read_address(&memory[..n], into)?;
    Ok(n)
}
