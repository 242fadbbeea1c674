// The texts of IPv4.
ghost use Rattle.address.specs.Dotted.{Dotted, quad};
ghost use Rattle.address.proofs.Quads.{quad_dotted, dotted_one, quad_short};
ghost use Rattle.std.proofs.Common.{arith};

use crate::family::TextFamily;
use address::dotted;
use fault::Fault;
use numeral::draft::Draft;
use prefix::four::V4;

impl TextFamily for V4 {
    ghost written = { quad };

    ghost spelt = { Dotted };

    ghost readable = { quad_dotted };

    ghost single = { dotted_one };

    ghost short = { λ n h. omega (arith, quad_short n h) };

    fn read_address(text: &[u8], into: &mut u32) -> Result<(), Fault> {
        dotted::read(text, into)
    }

    fn draft(address: u32) -> Draft {
        dotted::write(address)
    }
}
