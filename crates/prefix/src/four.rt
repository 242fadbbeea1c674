// IPv4: addresses of 32 bits.
ghost use Rattle.std.specs.Prelude.{◌^◌, ◌<◌};
ghost use Rattle.std.proofs.Common.{rules};
ghost use Rattle.std.proofs.Props.{props};
ghost use Rattle.prefix.specs.Table.{reserved4};

use crate::address::Address;
use crate::of::Of;
use crate::row::Row;

// The IPv4 family.
pub type V4 = Of<u32>;

// The blocks that no IPv4 plan may touch, by address.
pub const RESERVED: [Row<u32>; 5] = [
    Row {
        address: 0x0000_0000,
        length: 8,
    },
    Row {
        address: 0x7f00_0000,
        length: 8,
    },
    Row {
        address: 0xa9fe_0000,
        length: 16,
    },
    Row {
        address: 0xe000_0000,
        length: 4,
    },
    Row {
        address: 0xf000_0000,
        length: 4,
    },
];

impl Address for u32 {
    const WIDTH: u8 = 32;

    ghost WIDTH = { 32 };

    ghost value = { λ a. a };

    ghost real = { λ a. a < 2 ^ 32 };

    ghost real_once = { λ a. Prim.hlevel props };

    ghost rows = { reserved4 };

    ghost narrow = { Prim.search rules };

    ghost five = { Prim.search rules };

    ghost below = { Prim.search rules };

    ghost one = { Prim.search rules };

    fn number(self) -> u128 {
        u128::from(self)
    }

    fn from_number(n: u128) -> u32 {
        (n % 0x1_0000_0000) as u32
    }

    fn reserved<'a>() -> &'a [Row<u32>] {
        &RESERVED
    }
}
