#![tactic(auto)]

// The theory: antt only, in specs/ and proofs/.
