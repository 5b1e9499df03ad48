//! Lemmas on tests, options and lists that proofs of several crates cite. No code.
#![tactic(auto)]
