#![tactic(auto)]

// What the promises stand on: the words that they use, the laws that lead to them from what the public calls state, and the
// same promises in other words (in full by door, by the rule, on the tree in the memory). The words and the first laws are in specs/, the rest in proofs/. No code.
