// How a primary type begins, and those that hold no type: keywords, literals, a type of one token.
#![tactic(auto)]

pub mod lone;
pub mod primary;
