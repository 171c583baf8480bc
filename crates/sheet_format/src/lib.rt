// The sheet format, see specs/ and proofs/.
#![tactic(auto)]

pub mod letters;
pub mod limits;
