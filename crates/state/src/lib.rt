#![tactic(auto)]

// A link as a state: settings, floor, tree and spare places, and what an order does to it, as total functions.
// The definitions and laws are in specs/; the laws that an edit of a definition breaks, and what follows from them, in proofs/. No code, no memory.
