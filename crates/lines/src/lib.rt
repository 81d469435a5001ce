// What the programs share: what they are given, lines gathered in a buffer, the records of a file, room for the largest, whole
// buffers summed up.
#![tactic(auto)]

pub mod given;
pub mod line;
pub mod record;
pub mod room;
pub mod sum;
