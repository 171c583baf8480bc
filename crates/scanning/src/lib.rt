// Terms as positions in an answer text: see specs/ for the definitions, proofs/ for their laws.
#![tactic(auto)]

pub mod class_elements;
pub mod fields;

// Above every number of a text: there is none (specs/Numbering.antt).
// A number, not an Option: `in_order` and `count_after` compare it with counts, and an Option would change what they say of 65,536.
pub const NO_NUMBER: u32 = 65536;
