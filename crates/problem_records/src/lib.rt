// The leads of a problem: judged, and read into two lent tables. Document 01, "Records" and "What is turned away", 6; document 02, 2.6
// and 2.10.
#![tactic(auto)]

pub mod in_force;
pub mod laid;
pub mod reader;
