// One look at a problem in two tables: policy iteration over its inequalities, under caps that the first list sets. What it finds
// decides every trial. docs/THEORY.md.
#![tactic(auto)]

pub mod caps;
pub mod frame;
pub mod greatest;
pub mod point;
pub mod second;
