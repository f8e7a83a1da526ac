// The members of a power and of a product in ascending order, on words; over 64 words is finding 55.
#![tactic(auto)]

pub mod powers;
pub mod products;
