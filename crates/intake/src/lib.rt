// What the tool is given: the file or argument that holds a text, lines of input, and the cutter of a text into tokens.
#![tactic(auto)]

pub mod cut;
pub mod feed;
pub mod source;
