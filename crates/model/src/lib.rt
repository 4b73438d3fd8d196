// The definitions of document 01 and their laws: no code stands in this crate.
#![tactic(auto)]
