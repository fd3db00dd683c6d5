#![tactic(auto)]

// The rules behind an answer bind: they alone give its class and span, and the round weighs 0. antt only, in specs/ and proofs/.
