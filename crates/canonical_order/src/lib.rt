// Inner. The subtags of a section in canonical order: variants, attributes, keywords, fields and extensions.
#![tactic(auto)]

mod choice;
pub mod extensions;
mod heads;
mod section;
pub mod sorted;
