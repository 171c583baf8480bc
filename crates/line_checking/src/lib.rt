// The checker's judgement of an answer text on flat memory: see specs/ for the definitions, proofs/ for the simulation.
#![tactic(auto)]

pub mod text_stages;

// All of the checker's state that is not in the work buffer. A pointer is the number of a record plus 1, and 0 for none, as it
// lies in lent memory.
#[derive(Clone, Copy)]
pub struct Registers {
    // What is due (module `text_stages`).
    pub stage: u32,
    // The node of the sequent's goal, or the variable of the B line that is due.
    pub node: u32,
    // The frame, the hypotheses and the level of the sequent.
    pub frame: u32,
    pub hypotheses: u32,
    pub level: u32,
    // The sequents left after the one that is due.
    pub rest: u32,
    // How many made constants and leftover variables have shown.
    pub made: u32,
    pub leftover: u32,
}

// The links of a hypothesis (specs/HypothesisChains.antt): how many hypotheses there are from it on, a jump to an older one, and how many
// members the jump passes.
#[derive(Clone, Copy)]
pub struct Links {
    pub depth: u32,
    pub jump: u32,
    pub passed: u32,
}
