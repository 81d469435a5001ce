// The call that reads, in its parts: a list is checked, read by the ring, and finished with its key or refused.
#![tactic(auto)]

pub mod reading;
