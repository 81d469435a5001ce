// How the call that reads ends: with a tree and its key, or with a refusal.
#![tactic(auto)]

pub mod reading;
