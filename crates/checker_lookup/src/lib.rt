// The typing rules that look names up: references, bindings of signatures, theta. specs/Scoped.antt has what a scope is at run time.
#![tactic(auto)]

pub mod bindings;
pub mod components;
pub mod references;
pub mod thetas;
