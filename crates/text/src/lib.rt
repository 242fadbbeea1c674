// The texts of prefixes and addresses, read and written, for any family.
#![tactic(auto)]

pub mod family;
pub mod four;
pub mod prefixes;
pub mod rewriting;
pub mod six;
mod slash;
