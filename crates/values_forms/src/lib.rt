// For any words: whether they are a value, and of which type. Given sets, whose sizes decide which elements there are.
#![tactic(auto)]

pub mod form;
pub mod givens;
pub mod type_words;
pub mod typed;
