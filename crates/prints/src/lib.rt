// What the tool prints of a tree, of a reading, of a key that was taken back and of two trees that differ: lines, or JSON;
// places of a text, and refusals in words.
#![tactic(auto)]

pub mod brief;
pub mod differing;
pub mod json;
pub mod known;
pub mod place;
pub mod reading;
pub mod say;
pub mod seen;
pub mod tag;
pub mod tagged;
pub mod taking;
pub mod trail;
pub mod tree;
