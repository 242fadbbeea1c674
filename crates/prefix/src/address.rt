// A kind of address: what a family of prefixes is made of.
ghost use Rattle.std.specs.Prelude.{◌≡◌, ℕ, ◌%◌, ◌^◌, ◌<◌, ◌≤◌, List, length};
ghost use Rattle.prefix.specs.declared.row.Row.{Row as TableRow};

use crate::row::Row;

// Addresses of `WIDTH` bits.
pub trait Address: Copy {
    const WIDTH: u8;

    ghost WIDTH: { ℕ };

    // an address as a number
    ghost value: { Self → ℕ };

    // a value that an address in memory can have, which has one proof at most
    ghost real: { Self → Type 0 };

    ghost real_once: { (a : Self) → IsProp (real a) };

    // the reserved blocks
    ghost rows: { List (TableRow Self) };

    fn number(self) -> u128
        ensures value { result ≡ value self }
        ensures real { real self };

    // The address of a number; bits above the width are dropped.
    fn from_number(n: u128) -> Self
        ensures value { value result ≡ n % 2 ^ WIDTH }
        ensures real { real result };

    // The blocks that no plan may touch, by address.
    fn reserved<'a>() -> &'a [Row<Self>]
    where
        Self: 'a,
        ensures { result.now ≡ rows };

    ghost narrow: { WIDTH ≤ 128 };

    ghost five: { length rows ≡ 5 };

    // addresses in memory are told apart by their numbers
    ghost below: { (a : Self) → real a → value a < 2 ^ WIDTH };

    ghost one: { (a b : Self) → real a → real b → value a ≡ value b → a ≡ b };
}
