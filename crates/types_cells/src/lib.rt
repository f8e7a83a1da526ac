// Cells in the caller's work area: new cells, links between them, the type words that they refer to. specs/Store.antt has the layout, specs/Layout.antt how it follows from the capacity.
#![tactic(auto)]

pub mod area;
pub mod growth;
pub mod links;
pub mod type_words;
