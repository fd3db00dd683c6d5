// The engine: the least span of a problem in bytes, by one look and document 01's trials, whole or one trial at a time. Document 01,
// "The engine".
#![tactic(auto)]

pub mod cells;
pub mod input;
pub mod one_trial;
pub mod solve;
