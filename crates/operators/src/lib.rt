// What the readers of unions, intersections, operators and infer do round their operands, one file a rule.
#![tactic(auto)]

pub mod infer;
pub mod operator;
pub mod union;
