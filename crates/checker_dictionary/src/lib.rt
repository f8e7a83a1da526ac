// The dictionary area of the check call: entries found by their names, and entries added. The definitions are in specs/.
#![tactic(auto)]

pub mod growth;
pub mod index;
pub mod lookup;
pub mod moving;
pub mod placing;
pub mod waiting;
