//! That the grammar of a library accepts the documents which the library admits, and no other. The laws stand in proofs/, and
//! `compile` of `compile_core` has them in its clauses.
#![tactic(auto)]
