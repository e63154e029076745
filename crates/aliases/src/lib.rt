// Inner. The alias table, tested. Whether a subtag is a key (`keys`), and what the aliases make of one (`replace`).
#![tactic(auto)]

pub mod keys;
pub mod replace;
