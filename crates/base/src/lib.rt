#![tactic(auto)]

// What is not about spans: numbers, lists that loops fill, and tests. Definitions and laws only; all other crates rest on it.
