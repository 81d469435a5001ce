// Token words, as a caller hands them in: their fields, their kinds, a cursor over them, look-ahead; and the limits.
#![tactic(auto)]

pub mod ahead;
pub mod cursor;
pub mod kind;
pub mod limits;
pub mod refusal;
mod tables;
pub mod token;
