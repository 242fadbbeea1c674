// IPv4 and IPv6 prefixes: one family interface, the two kinds of address behind it, places under a
// root, and the reserved blocks.
#![tactic(auto)]

pub mod address;
pub mod family;
pub mod four;
pub mod meaning;
pub mod of;
pub mod places;
pub mod reserved;
pub mod row;
mod shift;
pub mod six;
