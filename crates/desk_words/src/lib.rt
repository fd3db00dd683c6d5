// The state of the desk as words, there and back. Document 02, 2.11.
#![tactic(auto)]

pub mod runs;
pub mod stored;
