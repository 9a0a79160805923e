// Ruling: the tests of document 01 on plain numbers, each proved equal to its definition in rule/specs.
// Those of the fit and of the codes are in rule. No tree and no lent memory here.
#![tactic(auto)]

pub mod bounds;
pub mod height;
pub mod kept;
pub mod key;
pub mod starts;
