// What the readers of functions, their parameters and type parameters do before, between and after their types.
#![tactic(auto)]

pub mod function;
