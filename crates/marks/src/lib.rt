// Where a reading stands, and what it lays down from there: nodes, names, diagnostics, lists.
#![tactic(auto)]

pub mod list;
pub mod names;
pub mod node;
pub mod notes;
pub mod state;
pub mod tally;
