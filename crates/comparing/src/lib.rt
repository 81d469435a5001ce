// The call that says what differs between two keys.
#![tactic(auto)]

pub mod differ;
