// The pick tables of an answer: a strategy of variables or of rows, with 0 for picks that play no part.
#![tactic(auto)]

pub mod tables;
