// Node numbers are labels: what check, fit and run make of a document does not depend on them. Definitions in specs/, theorems in proofs/.
#![tactic(auto)]
