// The converter: a stored problem without its rules that say nothing. Document 02, 2.6.
#![tactic(auto)]

pub mod convert;
pub mod input;
