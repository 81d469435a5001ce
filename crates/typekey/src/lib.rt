// The key library: the three open calls. A text is read into a tree and its key; a key is taken back; two keys are compared.
#![tactic(auto)]

pub mod differing;
pub mod reading;
pub mod taking;
