// Answer records: bytes to fields. Document 01, "Records" and "What is turned away".
#![tactic(auto)]

pub mod answer;
pub mod class;
