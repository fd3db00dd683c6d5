// A census of small problems: how often each class occurs. Document 02, 2.14.
#![tactic(auto)]

pub mod census;
pub mod small;
pub mod tally;
pub mod total;
