// Inner. The canonical form of an identifier in a buffer, over aliases that passed the check.
#![tactic(auto)]

pub mod buffer;
pub mod form;
mod lsr;
mod variants;
