#![tactic(auto)]

// Rows chosen: the same plans, classes and certificates. antt only, in specs/ and proofs/.
