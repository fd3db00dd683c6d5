// The arcs of a strategy as a table, and the test of its closed walks. Document 01, "The checker".
#![tactic(auto)]

pub mod arcs;
pub mod gains;
