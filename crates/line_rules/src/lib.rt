// The line of each kind: one rule for each.
#![tactic(auto)]

pub mod binding_lines;
pub mod clause_rules;
pub mod connective_rules;
mod prefixes;
pub mod quantifier_rules;
pub mod result_lines;
