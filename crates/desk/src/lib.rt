// A desk for sixteen problems above the engine: they are taken in, tried one trial a step in turn, and collected. Document 02, 2.11.
#![tactic(auto)]

pub mod calls;
pub mod limits;
pub mod state;
