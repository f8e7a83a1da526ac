// The typing rules of nodes, over the cells of their operands (document 01, "Typing rules").
#![tactic(auto)]

pub mod building;
pub mod equations;
