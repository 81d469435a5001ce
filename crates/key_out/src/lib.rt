// Key out: the key of a tree that stands in the store.
#![tactic(auto)]

pub mod out;
