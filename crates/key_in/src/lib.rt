// Key in: a key taken back, from its bytes to nodes, names and text.
#![tactic(auto)]

pub mod back;
