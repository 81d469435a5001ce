// The steps by which a key is taken back: spellings, choices, its last bits, and where the walk of a node is.
#![tactic(auto)]

pub mod choice;
pub mod never;
pub mod padding;
pub mod place;
pub mod refusal;
pub mod spelling;
pub mod step;
