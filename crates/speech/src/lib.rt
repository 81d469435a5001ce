// What the tool is asked, and how its bytes go out: the arguments, bytes and lists on their way out, hex, and the help.
#![tactic(auto)]

pub mod ask;
pub mod help;
pub mod hex;
pub mod put;
