// What the checker holds between two lines: the sequent that is due, its members, the line that is due.
#![tactic(auto)]

ghost use Rattle.std.specs.Prelude.{◌≤◌, ◌<◌, length};

pub mod hypothesis_chains;
pub mod open_sequents;
pub mod places;
pub mod registers;
pub mod starts;

// What the table of the sheet has: how many symbols and clauses, and the node of the goal.
#[derive(Clone, Copy)]
pub struct Shape {
    pub symbols: u32,
    pub clauses: u32,
    pub goal: u32,
}

// What stays the same while a text is judged: the sheet, its table, what the table has, and the text, of at most 65,535 bytes.
#[derive(Clone, Copy)]
pub struct CheckInput<'a> {
    pub sheet: &'a [u8],
    pub table: &'a [u32],
    pub shape: Shape,
    pub text: &'a [u8],
    pub ghost text_fits: { length text.now ≤ 65535 },
}

// A line of the text: its number, counted from 0, where it starts and where it ends. A text has at most 65,535 bytes, and an LF after
// each line.
#[derive(Clone, Copy)]
pub struct Line {
    pub number: u32,
    pub at: usize,
    pub end: usize,
    pub ghost in_text: { (number ≤ at) × (at ≤ end) × (end < 65535) },
}
