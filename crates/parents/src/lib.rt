// Inner. The parent table, tested. The walk of the check over texts of the table (`walk`), and the lines of a chain
// (`lines`).
#![tactic(auto)]

pub mod lines;
pub mod walk;
