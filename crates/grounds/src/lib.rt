// The rules behind an accepted answer, and the binding round of a least span. Document 02, 2.5.
#![tactic(auto)]

pub mod input;
pub mod latest;
pub mod numbers;
pub mod plan;
pub mod reached;
pub mod reasons;
pub mod round;
pub mod rules;
pub mod turns;
