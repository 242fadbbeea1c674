// The worked examples: one statement that joins them, over the definitions that contracts cite, and
// the places in it as the code finds them.
#![tactic(auto)]

ghost use Rattle.std.specs.Prelude.{◌≡◌};
ghost use Rattle.worked.specs.Worked.{Worked};

use prefix::family::Family;
use prefix::four::V4;
use prefix::six::V6;

// The two places of the examples.
#[derive(Clone, Copy, PartialEq, Eq, Debug)]
pub struct Places {
    pub four: usize,
    pub six: usize,
}

// 203.0.113.64/26 under 203.0.113.0/24, and 2001:db8:ab0::/44 under 2001:db8::/32.
pub fn examples() -> Places
    ensures facts { Worked }
    ensures four { result.four ≡ 5 }
    ensures six { result.six ≡ 4267 }
{
    let root4 = V4::enclosing(0xcb00_7100, 24);
    let block4 = V4::enclosing(0xcb00_7140, 26);
    let root6 = V6::enclosing([0x2001, 0xdb8, 0, 0, 0, 0, 0, 0], 32);
    let block6 = V6::enclosing([0x2001, 0xdb8, 0xab0, 0, 0, 0, 0, 0], 44);
    Places {
        four: V4::place(&root4, 4, &block4),
        six: V6::place(&root6, 12, &block6),
    }
}

#[cfg(test)]
mod tests;
