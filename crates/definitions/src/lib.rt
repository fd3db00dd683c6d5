#![tactic(auto)]

// Definitions only: what a reader must believe stands in specs/.
