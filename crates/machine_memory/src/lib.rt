// The machine's work buffer: chains of assumptions, cells, words, records, the trail, frames, registers, choice points.
#![tactic(auto)]

pub mod assumption_chains;
pub mod cells;
pub mod choice_points;
pub mod frames;
pub mod records;
pub mod registers;
mod rows;
pub mod trail;
pub mod words;
