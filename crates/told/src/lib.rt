// How an answer is told in eight words, and what the word of options says.
#![tactic(auto)]

pub mod answer;
pub mod options;
