// The members of a power and of a product, listed: one definition of rows for both. Definitions and laws only.
#![tactic(auto)]
