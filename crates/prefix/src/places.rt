// Prefixes and places, there and back.
ghost use Rattle.std.specs.Prelude.{◌≡◌, true, false};
ghost use Rattle.prefix.specs.Form.{block};
ghost use Rattle.prefix.specs.Places.{belongs};

use crate::family::Family;

// The prefix at the place of a prefix: the same prefix where it belongs under the root, else the root.
pub fn at_own_place<F: Family>(root: &F::Prefix, depth: u8, p: &F::Prefix) -> F::Prefix
    ensures inside { belongs F.WIDTH (block F.form root.now) depth (block F.form p.now) ≡ true → result ≡ p.now }
    ensures outside { belongs F.WIDTH (block F.form root.now) depth (block F.form p.now) ≡ false → result ≡ root.now }
{
    F::prefix_at(root, depth, F::place(root, depth, p))
}
