// The rule: document 01's definitions (specs/), the answer's numbers, the refusals, the moments, and the code of the fit and of the codes,
// proved equal to them. The other tests on plain numbers are in crate ruling. No tree and no lent memory here.
#![tactic(auto)]

pub mod answer;
pub mod codes;
pub mod fit;
pub mod moments;
pub mod refusal;
