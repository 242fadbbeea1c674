// The texts of addresses: dotted octets for IPv4, groups and colons for IPv6, read and written.
#![tactic(auto)]

pub mod colons;
pub mod dotted;
pub mod zeros;
