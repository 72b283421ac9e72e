// This crate has no code. specs/ is the paper as definitions, a file for each of its headings; proofs/ shows what they mean.
#![tactic(auto)]
