// Types, terms and equations: specs/ defines them, proofs/ has the laws. The code over them stands in the crates types_cells and types_solver.
#![tactic(auto)]
