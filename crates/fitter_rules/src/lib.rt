// The fit call, defined; the code is in `fitter`.
#![tactic(auto)]
