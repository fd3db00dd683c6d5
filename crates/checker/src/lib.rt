// The checker: it judges an answer and trusts no engine. Document 01, "The checker".
#![tactic(auto)]

pub mod check;
pub mod input;
