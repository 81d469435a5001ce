// Fields of a key: bits put into lent bytes, and numbers and the bytes of spellings taken from a key.
#![tactic(auto)]

pub mod put;
pub mod reader;
pub mod take;
