// Document 01's numbers, each under one name: kinds of nodes, tags of type words and of value words, classes of dictionary entries, findings, limits,
// and how identifiers are written. The definitions in specs/ have the numbers as document 01 writes them; the code has these names.
#![tactic(auto)]

pub mod classes;
pub mod findings;
pub mod identifiers;
pub mod kinds;
pub mod limits;
pub mod type_tags;
pub mod value_tags;

// Bytes of a word.
pub const WORD_BYTES: usize = 4;
