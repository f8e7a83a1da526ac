// What makes two cells equal: a settled type given to a cell by its words, and the merging of two cells.
#![tactic(auto)]

pub mod settling;
pub mod unification;
