// What the readers of tuples do before, between and after their elements.
#![tactic(auto)]

pub mod tuple;
