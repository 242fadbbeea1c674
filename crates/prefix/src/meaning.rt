// What the family's answers about prefixes mean, in terms of bits and addresses alone.
ghost use Rattle.std.specs.Prelude.{◌≡◌, ℕ, ◌<◌, Decides};
ghost use Rattle.prefix.specs.Bits.{bit};
ghost use Rattle.prefix.specs.Form.{block};
ghost use Rattle.prefix.specs.Prefixes.{Within, Shared};

use crate::family::Family;

// Whether an address lies in a prefix: each of its bits up to the prefix's length is the prefix's.
pub fn has_bits_of<F: Family>(p: &F::Prefix, address: F::Address) -> bool
    ensures { Decides result ((i : ℕ) → i < F.form.length p.now → bit F.WIDTH (F.form.number address) i ≡ bit F.WIDTH (F.form.first p.now) i) }
{
    F::contains(p, address)
}

// Whether prefix q lies in prefix p: every address of q is one of p.
pub fn has_all_of<F: Family>(p: &F::Prefix, q: &F::Prefix) -> bool
    ensures { Decides result (Within F.WIDTH (block F.form p.now) (block F.form q.now)) }
{
    F::covers(p, q)
}

// Whether two prefixes overlap: some address lies in both.
pub fn has_some_of<F: Family>(p: &F::Prefix, q: &F::Prefix) -> bool
    ensures { Decides result (Shared F.WIDTH (block F.form p.now) (block F.form q.now)) }
{
    F::overlaps(p, q)
}
