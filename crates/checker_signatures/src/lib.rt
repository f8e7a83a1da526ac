// Signatures and scopes as rows of the work area, an identifier and the place of its type each: specs/Rows.antt.
#![tactic(auto)]

pub mod includes;
pub mod scopes;
pub mod tables;
