// What an Include brings, on words: its components with the actuals for the schema's parameters (specs/Components.antt).
#![tactic(auto)]

pub mod filling;
pub mod storing;
