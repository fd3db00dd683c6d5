#![tactic(auto)]

// Parts of a minute gain nothing: antt only, in specs/ and proofs/.
