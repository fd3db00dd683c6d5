// Hours and minutes on the sheet: spans and stamps to text and back. Document 02, 2.7.
#![tactic(auto)]

pub mod reader;
pub mod writer;
