// Decimal numbers and lines of text, into a lent slice. Document 01, "Two programs".
#![tactic(auto)]

pub mod lines;
pub mod text;
