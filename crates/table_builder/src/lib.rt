// The node table, filled line by line.
#![tactic(auto)]

pub mod applications;
mod arguments;
pub mod node_info;
pub mod node_lines;
mod nodes;
pub mod orders;
pub mod symbols;
