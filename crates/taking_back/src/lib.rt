// The call that takes a key back, over `key_in`: its answer as a caller sees it.
#![tactic(auto)]

pub mod call;
