// The texts of IPv6.
ghost use Rattle.text.specs.Families.{Spelt6, written6};
ghost use Rattle.text.specs.Eights.{written6_spelt, spelt6_one, written6_short};

use crate::family::TextFamily;
use address::colons;
use fault::Fault;
use numeral::draft::Draft;
use prefix::six::V6;

impl TextFamily for V6 {
    ghost written = { written6 };

    ghost spelt = { Spelt6 };

    ghost readable = { written6_spelt };

    ghost single = { spelt6_one };

    ghost short = { written6_short };

    fn read_address(text: &[u8], into: &mut [u16; 8]) -> Result<(), Fault> {
        colons::read(text, into)
    }

    fn draft(address: [u16; 8]) -> Draft {
        colons::write(address)
    }
}
