// The family interface: what plan and text code may ask of IPv4 and IPv6 alike.
ghost use Rattle.std.specs.Prelude.{◌≡◌, ℕ, ◌+◌, ◌-◌, ◌*◌, ◌%◌, ◌^◌, ◌<◌, ◌≤◌, min, true, false, List, length, is_ok, Some, None, Decides, MatchResult};
ghost use Rattle.fault.specs.Causes.{alone};
ghost use Rattle.prefix.specs.Bits.{bit, cleared};
ghost use Rattle.prefix.specs.Form.{Form, block};
ghost use Rattle.prefix.specs.Prefixes.{Valid, Within, Shared, refusal, contains, covers, overlaps};
ghost use Rattle.prefix.specs.Places.{place, is_place, block_down};
ghost use Rattle.prefix.specs.Binary.{front_decides};
ghost use Rattle.prefix.specs.Sharing.{covers_decides, overlaps_decides};
ghost use Rattle.prefix.specs.declared.row.Row.{Row as TableRow};

use crate::row::Row;
use crate::shift;
use fault::{Cause, Fault};

// A family of addresses of `WIDTH` bits. A prefix keeps its invariant in its type: no bit is set at
// or behind its length, so no call tests that again.
pub trait Family {
    type Address: Copy;

    type Prefix: Copy;

    const WIDTH: u8;

    ghost WIDTH: { ℕ };
    // how addresses and prefixes are read as numbers
    ghost form: { Form Self.Address Self.Prefix };
    // a value that an address in memory can have
    ghost real: { Self.Address → Type 0 };
    // the family's reserved blocks
    ghost rows: { List (TableRow Self.Address) };

    // An address as a number.
    fn number(address: Self::Address) -> u128
        ensures value { result ≡ form.number address }
        ensures bound { result < 2 ^ WIDTH }
        ensures real { real address };

    // The address of a number; bits above the width are dropped.
    fn address(n: u128) -> Self::Address
        ensures { form.number result ≡ n % 2 ^ WIDTH };

    // The prefix of the first `length` bits of an address, or of all where there are no more.
    fn enclosing(address: Self::Address, length: u8) -> Self::Prefix
        ensures { block form result ≡ record { first = cleared WIDTH length (form.number address); length = min length WIDTH } };

    // The first address of a prefix.
    fn first(p: &Self::Prefix) -> Self::Address
        ensures { form.number result ≡ form.first p.now };

    // The length of a prefix.
    fn length(p: &Self::Prefix) -> u8
        ensures { result ≡ form.length p.now };

    // The reserved blocks.
    fn reserved<'a>() -> &'a [Row<Self::Address>]
    where
        Self::Address: 'a,
        ensures { result.now ≡ rows };

    // Makes a prefix of exactly this address and length in a lent place, or refuses.
    fn make(address: Self::Address, length: u32, into: &mut Self::Prefix) -> Result<(), Fault>
        ensures cases { MatchResult result
            (λ _. (refusal WIDTH (form.number address) length ≡ None) × (block form into.new ≡ record { first = form.number address; length = length }))
            (λ f. (refusal WIDTH (form.number address) length ≡ Some f.cause) × (f ≡ alone f.cause) × (into.new ≡ into.old)) }
        ensures bits { Decides (is_ok result) ((length ≤ WIDTH) × ((i : ℕ) → length ≤ i → i < WIDTH → bit WIDTH (form.number address) i ≡ 0)) }
    {
        if length > u32::from(Self::WIDTH) {
            return Err(Fault::alone(Cause::LengthAboveWidth));
        }
        let length = length as u8;
        if shift::lower(Self::number(address), Self::WIDTH - length) != 0 {
            return Err(Fault::alone(Cause::HostBitSet));
        }
        *into = Self::enclosing(address, length);
        Ok(())
    }

    // Whether an address lies in a prefix.
    fn contains(p: &Self::Prefix, address: Self::Address) -> bool
        ensures value { result ≡ contains WIDTH (block form p.now) (form.number address) }
        ensures bound { form.number address < 2 ^ WIDTH }
    {
        let behind = Self::WIDTH - Self::length(p);
        shift::upper(Self::number(address), behind)
            == shift::upper(Self::number(Self::first(p)), behind)
    }

    // Whether prefix q lies in prefix p.
    fn covers(p: &Self::Prefix, q: &Self::Prefix) -> bool
        ensures { result ≡ covers WIDTH (block form p.now) (block form q.now) }
    {
        Self::length(p) <= Self::length(q) && Self::contains(p, Self::first(q))
    }

    // Whether two prefixes share an address.
    fn overlaps(p: &Self::Prefix, q: &Self::Prefix) -> bool
        ensures { result ≡ overlaps WIDTH (block form p.now) (block form q.now) }
    {
        Self::covers(p, q) || Self::covers(q, p)
    }

    // The place of a prefix under a root, or 0 where it does not belong there.
    fn place(root: &Self::Prefix, depth: u8, p: &Self::Prefix) -> usize
        ensures { result ≡ place WIDTH (block form root.now) depth (block form p.now) }
    {
        let r = Self::length(root);
        let l = Self::length(p);
        let above = Self::WIDTH - r;
        if depth > 12 || depth > above || l < r || l - r > depth {
            return 0;
        }
        let n = Self::number(Self::first(p));
        if shift::upper(n, above) != shift::upper(Self::number(Self::first(root)), above) {
            return 0;
        }
        let below = l - r;
        (1usize << below) + shift::lower(shift::upper(n, Self::WIDTH - l), below) as usize
    }

    // The prefix at a place under a root, or the root where the number is no place.
    fn prefix_at(root: &Self::Prefix, depth: u8, n: usize) -> Self::Prefix
        ensures inside { (k : ℕ) → is_place WIDTH (block form root.now) depth n ≡ true → 2 ^ k ≤ n → n < 2 ^ (k + 1) → block form result ≡ block_down WIDTH (block form root.now) k n }
        ensures outside { is_place WIDTH (block form root.now) depth n ≡ false → result ≡ root.now }
        ensures back { is_place WIDTH (block form root.now) depth n ≡ true → place WIDTH (block form root.now) depth (block form result) ≡ n }
    {
        let r = Self::length(root);
        if depth > 12 || depth > Self::WIDTH - r || n == 0 || n >= 2usize << depth {
            return *root;
        }
        let below = n.ilog2() as u8;
        let length = r + below;
        let path = (n - (1usize << below)) as u128;
        let first = Self::number(Self::first(root)) + shift::raised(path, Self::WIDTH - length);
        Self::enclosing(Self::address(first), length)
    }

    // addresses fit 128 bits, and prefixes keep their invariant
    ghost narrow: { WIDTH ≤ 128 };

    ghost valid: { (p : Self.Prefix) → Valid WIDTH (block form p) };

    // prefixes of one first address and length are one prefix
    ghost same: { (p q : Self.Prefix) → block form p ≡ block form q → p ≡ q };

    ghost five: { length rows ≡ 5 };

    // what containing, covering and overlapping mean, by bits and addresses
    ghost bitwise: { (p : Self.Prefix) (x : ℕ) → x < 2 ^ WIDTH → Decides (contains WIDTH (block form p) x) ((i : ℕ) → i < form.length p → bit WIDTH x i ≡ bit WIDTH (form.first p) i) } = { λ p x small. front_decides WIDTH (form.length p) (valid p).within x (form.first p) small (valid p).small };

    ghost within: { (p q : Self.Prefix) → Decides (covers WIDTH (block form p) (block form q)) (Within WIDTH (block form p) (block form q)) } = { λ p q. covers_decides WIDTH (block form p) (block form q) (valid p) (valid q) };

    ghost shared: { (p q : Self.Prefix) → Decides (overlaps WIDTH (block form p) (block form q)) (Shared WIDTH (block form p) (block form q)) } = { λ p q. overlaps_decides WIDTH (block form p) (block form q) (valid p) (valid q) };

    // addresses in memory are told apart by their numbers
    ghost below: { (a : Self.Address) → real a → form.number a < 2 ^ WIDTH };

    ghost one: { (a b : Self.Address) → real a → real b → form.number a ≡ form.number b → a ≡ b };
}
