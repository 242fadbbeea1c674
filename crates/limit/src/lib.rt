// Limits: each holds any space and lets its rule say yes less often. They pile in any order and number.
#![tactic(auto)]

pub mod hold_back;
pub mod limited;
pub mod pile;
pub mod quota;
pub mod rule;
