// The evaluation rules on words, proved equal to those of the crate `evaluator_rules`.
#![tactic(auto)]

pub mod nodes;
