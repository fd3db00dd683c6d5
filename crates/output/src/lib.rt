// What the programs put out: records and lines, byte for byte. Document 01, "Two programs".
#![tactic(auto)]

pub mod writer;
