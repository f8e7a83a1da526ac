// Closing nodes (the Decl, the Include, the relation, the Abbreviation) after the visits below them: their own findings, and what the functions over nodes
// return.
#![tactic(auto)]

pub mod actual;
pub mod declared;
pub mod elements;
pub mod included;
pub mod includes;
pub mod leaves;
pub mod relation;
pub mod results;
