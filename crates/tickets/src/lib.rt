#![tactic(auto)]

// A desk's tickets: what holds of every sequence of calls, and that each call has one answer. antt only, in proofs/.
