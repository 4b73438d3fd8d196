// Demand 3: every list of calls. No code stands in this crate.
#![tactic(auto)]
