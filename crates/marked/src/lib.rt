// The runs that the request marks, computed on an index of 1,024 blocks. No code stands in this crate.
#![tactic(auto)]
