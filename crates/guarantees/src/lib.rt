// The demands as theorems: start reading at proofs/Demands.antt. The engine's own answers, judged and read: own.rt.
#![tactic(auto)]

pub mod called;
pub mod own;
