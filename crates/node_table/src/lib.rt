// The node table as words, proved to be the table of the definitions, and the moves of a walk over a tree by it.
#![tactic(auto)]

pub mod forms;
pub mod moves;
mod tables;
pub mod walk;
