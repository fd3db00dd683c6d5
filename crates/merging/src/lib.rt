// Two plans into one: each moment the later of the first plan's and the second plan's plus a shift. Document 02, 2.13.
#![tactic(auto)]

pub mod merge;
pub mod pass;
pub mod plan;
pub mod rules;
pub mod stamps;
