//! That the merged ODD of a library stands for its files, as proofs.
#![tactic(auto)]
