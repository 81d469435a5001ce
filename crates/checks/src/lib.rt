// The check of a token list, and of how its tokens are spelled.
#![tactic(auto)]

pub mod check;
pub mod spelling;
mod tables;
