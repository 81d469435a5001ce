// Visits: what a tree that stands in the store holds, in the key's order, for a program that prints it.
#![tactic(auto)]

pub mod visits;
