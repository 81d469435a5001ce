// What the readers of names with arguments, mapped types and postfix marks do before, between and after their types, one file a rule.
#![tactic(auto)]

pub mod arguments;
pub mod mapped;
pub mod postfix;
