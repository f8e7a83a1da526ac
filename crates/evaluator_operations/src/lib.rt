// What the operations of a run do with values. The definitions are in the crate `evaluator_rules`.
#![tactic(auto)]

pub mod collections;
pub mod enumerations;
pub mod gathering;
pub mod logic;
pub mod numbers;
pub mod worked;
