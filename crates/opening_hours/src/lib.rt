// Opening hours of a ward: the first open minute at or after a minute. Document 02, 2.8.
#![tactic(auto)]

pub mod list;
pub mod lookup;
