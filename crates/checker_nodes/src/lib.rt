// The check call: typing rules on words. The definitions are in the crate `checker_rules`, what the functions over nodes promise in `checker_contracts`.
#![tactic(auto)]

pub mod nodes;
