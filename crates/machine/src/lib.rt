// The engine's machine: see specs/ for its definitions, proofs/ for the simulation of the search.
#![tactic(auto)]

pub mod fields;
pub mod lines;
pub mod modes;
pub mod tags;

// All of the machine's state that is not in the work buffer. A pointer is the number of a record plus 1, and 0 for none: pointers, words and
// lines are numbers here as they lie in lent memory.
#[derive(Clone, Copy)]
pub struct Registers {
    // The number of acts done, which is the number of the record that the next act may write.
    pub acts: u32,
    // The act that is due, or the verdict (module `modes`).
    pub mode: u32,
    // The number of variables made.
    pub next: u32,
    // Pointers: the latest trail entry, the latest choice point, the goals that wait, the path.
    pub trail: u32,
    pub choice: u32,
    pub goals: u32,
    pub path: u32,
    // Which line the latest record of the path is (module `lines`).
    pub line: u32,
    // The goal to take, or the atom whose members are tried: node, frame, assumptions, level. In a range check node is the word of the
    // node that is due, as far as it is looked through, 0 while that is the word which its record has.
    pub node: u32,
    pub frame: u32,
    pub program: u32,
    pub level: u32,
    // The member to try: assumption, or 0 and the clause of the sheet; its number in the clause, its place at the atom.
    pub hypothesis: u32,
    pub clause: u32,
    pub member: u32,
    pub place: u32,
    // The words of the pair that is due, goal's side and clause's side, as far as they are looked through; left is 0 while they are those
    // which its record has. In a range check: the variable to be bound, and its value.
    pub left: u32,
    pub right: u32,
    // The pairs that wait, the first of them due in a comparison.
    pub pairs: u32,
    // The nodes of a range check that wait, the first of them due, 0 for the whole value.
    pub nodes: u32,
}
