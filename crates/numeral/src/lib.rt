// Numbers in text: decimal numbers and groups of hexadecimal digits, read from lent bytes, and the
// draft that texts are written to.
#![tactic(auto)]

pub mod draft;
pub mod group;
pub mod leading;
pub mod number;
pub mod writing;
