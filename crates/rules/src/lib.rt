// Document 01's reading rules.
#![tactic(auto)]
