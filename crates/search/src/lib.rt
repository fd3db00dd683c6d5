// Document 01's trials, each one comparison with what a look found: a search for the least span, whole or one trial at a time.
#![tactic(auto)]

pub mod bracket;
pub mod search;
pub mod steps;
pub mod trial;
