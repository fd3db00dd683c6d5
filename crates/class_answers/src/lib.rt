// The answer to the problem in two tables: a look, the trials by what it found, and the answer of each class. Document 01, "The
// engine".
#![tactic(auto)]

pub mod answer;
