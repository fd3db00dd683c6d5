// Fields in bytes, offset numbers, the numbers of documents 01 and 02, and a problem's header. Document 01, "Records" and "What is turned away".
#![tactic(auto)]

pub mod bytes;
pub mod class;
pub mod idle;
pub mod limits;
pub mod offset;
pub mod problem;
pub mod refusal;
