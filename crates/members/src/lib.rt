// What readers do before, between and after the types of the members of an object type.
#![tactic(auto)]

pub mod object;
