// Writing to a draft, and copying it out. A draft takes no more than its longest text: what would
// pass that is left out, and `take 43` in each contract says so.
ghost use Rattle.std.specs.Prelude.{◌≡◌, ◌≤◌, false, [], ◌∷◌, ◌++◌, length, take, decimal};
ghost use Rattle.std.specs.Fmt.{digits};
ghost use Rattle.numeral.specs.Groups.{hex};
ghost use Rattle.numeral.specs.Drafts.{Wrote};

use crate::draft::{Draft, LONGEST};
use fault::{Cause, Fault};

impl Draft {
    // A draft with nothing written.
    pub fn new() -> Draft
        ensures { result ≡ [] }
    {
        Draft {
            bytes: [0; LONGEST],
            len: 0,
        }
    }

    // One byte more.
    pub fn push(&mut self, b: u8)
        ensures { self.new ≡ take 43 (self.old ++ (b ∷ [])) }
    {
        // The length is read once: to add to it in place, right behind the byte, is slower.
        let at = self.len;
        if at < LONGEST {
            self.bytes[at] = b;
            self.len = at + 1;
        }
    }

    // The digits of a number in a base up to sixteen, lower case, with no idle zero.
    fn spell<const BASE: u16>(&mut self, n: u16)
        requires low { 2 ≤ BASE }
        requires high { BASE ≤ 16 }
        ensures { self.new ≡ take 43 (self.old ++ digits BASE false n) }
    {
        if n >= BASE {
            self.spell::<BASE>(n / BASE);
        }
        let digit = char::from_digit(u32::from(n % BASE), 16).unwrap();
        self.push(digit as u8);
    }

    // A number in decimal.
    pub fn decimal(&mut self, n: u8)
        ensures { self.new ≡ take 43 (self.old ++ decimal n) }
    {
        self.spell::<10>(u16::from(n));
    }

    // A group in hexadecimal.
    pub fn hex(&mut self, g: u16)
        ensures { self.new ≡ take 43 (self.old ++ hex g) }
    {
        self.spell::<16>(g);
    }

    // Copies the text to the front of lent memory and answers its count, or refuses, with nothing
    // changed, memory that is too short for it.
    pub fn copy_to(&self, memory: &mut [u8]) -> Result<usize, Fault>
        ensures wrote { Wrote self.now memory.old memory.new result }
        ensures short { length self.now ≤ 43 }
    {
        let len = self.len;
        if memory.len() < len {
            return Err(Fault::alone(Cause::MemoryTooShort));
        }
        memory[0..len].copy_from_slice(&self.bytes[0..len]);
        Ok(len)
    }
}
