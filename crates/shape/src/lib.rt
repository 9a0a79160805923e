#![tactic(auto)]

// The tree of voids as mathematics: its definitions and laws are in specs/. No code, no memory.
