// Whether a byte string is a key, with nothing taken from it.
#![tactic(auto)]

pub mod sound;
pub mod source;
