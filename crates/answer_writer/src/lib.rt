// Answer records written, and what is written read back. Document 01, "Records" and "What is turned away".
#![tactic(auto)]

pub mod roundtrip;
pub mod writer;
