// The public calls with the tally by value: open, act on one record, tell; the fourth, run, is crate `running`. Nothing is
// asked of the caller: bad input, spoiled memory and a bad clock are refused by number. Crate `door` exports them.
#![tactic(auto)]

pub mod act;
pub mod open;
pub mod tell;
