#![tactic(auto)]

// The three demands of the statement as theorems over what the public calls promise (crates running and calls).
// The theorems are in specs/. No code.
