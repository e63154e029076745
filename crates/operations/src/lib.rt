// Inner. The four operations over tables that passed the check. `altazhbey` has them for any tables.
#![tactic(auto)]

pub mod canonicalise;
pub mod chain;
pub mod complete;
pub mod delivery;
pub mod tables;
