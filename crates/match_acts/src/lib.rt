// The machine's acts on a pair of arguments: matching, with range checks.
// Table, number of clauses, buffer and registers are parameters of their own: most functions take two or three of them, and some only
// read the buffer, so a struct of all would be no plainer.
#![tactic(auto)]

pub mod comparing;
mod occurs_check;
pub mod pairs;
pub mod range_check;
