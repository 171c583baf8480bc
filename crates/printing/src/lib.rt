// The answer printer on flat memory: see specs/ for its definitions, proofs/ for the text that it writes.
#![tactic(auto)]

pub mod fields;

// The number of lines that a link tells apart (specs/Links.antt).
pub const LINE_CODES: u32 = 8;

// Where the next byte goes, and how many leftover variables and made constants have been numbered.
#[derive(Clone, Copy)]
pub struct Cursor {
    pub at: u32,
    pub variables: u32,
    pub constants: u32,
}
