// Demand 3 of document 01 over the calls: what the contracts of check, fit and run say together. Theorems alone; proofs/ has them.
#![tactic(auto)]
