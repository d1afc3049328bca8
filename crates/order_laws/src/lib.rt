//! That the order in which an ODD file says things makes no difference, as proofs.
#![tactic(auto)]
