// Texts in canonical form.
ghost use Rattle.text.specs.Rewriting.{Rewrote};

use crate::family::TextFamily;
use crate::prefixes::{read_prefix, write_address, write_prefix};
use crate::slash::last_slash;
use fault::Fault;

// Writes what a text spells, a prefix where it has a slash and else an address, to the front of
// lent memory in canonical form.
pub fn rewrite<F: TextFamily>(text: &[u8], memory: &mut [u8]) -> Result<usize, Fault>
    ensures { Rewrote F.spelt F.written F.WIDTH text.now memory.old memory.new result }
{
    // Any address will do to be lent, and any prefix: they are overwritten before they are used.
    let mut address = F::address(0);
    match last_slash(text) {
        Some(_) => {
            let mut p = F::enclosing(address, 0);
            read_prefix::<F>(text, &mut p)?;
            write_prefix::<F>(&p, memory)
        }
        None => {
            F::read_address(text, &mut address)?;
            write_address::<F>(address, memory)
        }
    }
}
