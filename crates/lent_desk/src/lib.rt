// The desk over memory and words that a caller lends, for C and Rust. Document 02, 2.11.
#![tactic(auto)]

pub mod entries;
