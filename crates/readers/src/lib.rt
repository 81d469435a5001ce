// The readers of types: a ring of functions, one a rule or a part of one.
#![tactic(auto)]

pub mod ring;
