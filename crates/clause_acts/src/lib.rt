// The machine's acts on the members of a clause: trying them in turn.
// Table, number of clauses, buffer and registers are parameters of their own: most functions take two or three of them, and some only
// read the buffer, so a struct of all would be no plainer.
#![tactic(auto)]

pub mod backchaining;
mod effects;
mod next_member;
