// IPv6: addresses of 128 bits, as eight groups of 16.
ghost use Rattle.std.proofs.Common.{rules};
ghost use Rattle.std.proofs.Props.{props};
ghost use Rattle.prefix.specs.Groups.{whole, Eight};
ghost use Rattle.prefix.specs.Table.{reserved6};
ghost use Rattle.prefix.specs.Eights.{whole_small, whole_one};

use crate::address::Address;
use crate::of::Of;
use crate::row::Row;
use crate::shift;

// The IPv6 family.
pub type V6 = Of<[u16; 8]>;

// The blocks that no IPv6 plan may touch, by address.
pub const RESERVED: [Row<[u16; 8]>; 5] = [
    Row {
        address: [0, 0, 0, 0, 0, 0, 0, 0],
        length: 128,
    },
    Row {
        address: [0, 0, 0, 0, 0, 0, 0, 1],
        length: 128,
    },
    Row {
        address: [0, 0, 0, 0, 0, 0xffff, 0, 0],
        length: 96,
    },
    Row {
        address: [0xfe80, 0, 0, 0, 0, 0, 0, 0],
        length: 10,
    },
    Row {
        address: [0xff00, 0, 0, 0, 0, 0, 0, 0],
        length: 8,
    },
];

impl Address for [u16; 8] {
    const WIDTH: u8 = 128;

    ghost WIDTH = { 128 };

    ghost value = { whole };

    ghost real = { Eight };

    ghost real_once = { λ a. Prim.hlevel props };

    ghost rows = { reserved6 };

    ghost narrow = { Prim.search rules };

    ghost five = { Prim.search rules };

    ghost below = { λ a r. whole_small a r.each };

    ghost one = { whole_one };

    fn number(self) -> u128 {
        self.iter().fold(0, |n, group| n << 16 | u128::from(*group))
    }

    fn from_number(n: u128) -> [u16; 8] {
        [112, 96, 80, 64, 48, 32, 16, 0].map(|behind| (shift::upper(n, behind) % 65536) as u16)
    }

    fn reserved<'a>() -> &'a [Row<[u16; 8]>] {
        &RESERVED
    }
}
