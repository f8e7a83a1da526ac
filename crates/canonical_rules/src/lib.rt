// The one coding of a document: trees apart from node numbers, and their canonical words. Definitions in specs/, theorems in proofs/.
#![tactic(auto)]
