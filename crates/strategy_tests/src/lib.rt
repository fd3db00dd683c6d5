// The tests of a strategy: its picks count, and its cycles weigh as document 01 asks. Document 01, "The checker".
#![tactic(auto)]

pub mod certify;
pub mod starts;
