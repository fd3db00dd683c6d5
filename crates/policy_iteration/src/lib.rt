// Policy iteration on two tables of coefficients: the values of a strategy under caps, and steps until no row fails.
#![tactic(auto)]

pub mod ends;
pub mod policy;
pub mod rows;
pub mod values;
