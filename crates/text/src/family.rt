// The family interface with texts: the bound that code above names.
ghost use Rattle.std.specs.Prelude.{◌≡◌, ℕ, ◌^◌, ◌<◌, ◌≤◌, List, length, MatchResult};
ghost use Rattle.fault.specs.Causes.{alone};
ghost use Rattle.fault.specs.declared.Cause.TheVariants.{Malformed};

use fault::Fault;
use numeral::draft::Draft;
use prefix::family::Family;

// A family whose addresses have texts.
pub trait TextFamily: Family {
    // the one text by which the address of a number is written
    ghost written: { ℕ → List ℕ };
    // a text and the number of the address that it spells
    ghost spelt: { List ℕ → ℕ → Type 0 };

    // Reads a whole text as an address into a lent place.
    fn read_address(text: &[u8], into: &mut Self::Address) -> Result<(), Fault>
        ensures { MatchResult result
            (λ _. spelt text.now (Self.form.number into.new) × Self.real into.new)
            (λ f. (f ≡ alone Malformed) × (into.new ≡ into.old) × ((n : ℕ) → spelt text.now n → ⊥)) };

    // The text of an address, as a draft.
    fn draft(address: Self::Address) -> Draft
        ensures text { result ≡ written (Self.form.number address) }
        ensures real { Self.real address };

    ghost readable: { (n : ℕ) → n < 2 ^ Self.WIDTH → spelt (written n) n };

    ghost single: { (text : List ℕ) (m n : ℕ) → spelt text m → spelt text n → m ≡ n };

    ghost short: { (n : ℕ) → n < 2 ^ Self.WIDTH → length (written n) ≤ 39 };
}
