// Numbers: words of 64 bits in lent memory, the whole part of log2.
// The lowest crate: nobody above it speaks of a byte's place inside a word.
#![tactic(auto)]

pub mod powers;
pub mod words;
