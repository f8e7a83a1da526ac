// Schema expressions and paragraphs, above the functions over nodes.
#![tactic(auto)]

pub mod abbreviations;
pub mod paragraphs;
pub mod schemas;

// Where the entries of a paragraph wait in the work area.
pub const ENTRIES: usize = 6144;
