//! Whole runs and single steps of the rules, computed. They have no code: the proofs are the rows.
#![tactic(auto)]
