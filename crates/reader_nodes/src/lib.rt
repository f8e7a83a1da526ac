// The form of a single node: its kind, the number and sorts of its operands, and findings 12 to 14. The definitions are in the crate `reader_rules`.
#![tactic(auto)]

pub mod counts;
pub mod kinds;
pub mod nodes;
pub mod operands;
pub mod plain;
pub mod sorts;
