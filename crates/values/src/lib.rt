// Values of a run on words: integers, elements of givens, sets and tuples, as states and work areas hold them.
#![tactic(auto)]

pub mod building;
pub mod held;
pub mod lookup;
pub mod numbers;
pub mod order;
pub mod sets;
pub mod shapes;
pub mod span;
