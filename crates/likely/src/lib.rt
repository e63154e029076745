// Inner. Maximising and minimising: language, script and region completed by the likely table, or shortened as far as
// that brings them back.
#![tactic(auto)]

pub mod forms;
mod lsr;
pub mod parts;
mod rows;
