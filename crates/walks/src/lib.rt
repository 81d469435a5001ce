// Two keys walked side by side.
#![tactic(auto)]

pub mod sides;
pub mod walk;
