// The walk over a paragraph's tree: what the functions over nodes ask and promise (specs/), and the laws by which they meet it (proofs/).
#![tactic(auto)]
