//! Which documents a library admits (TEI Guidelines, the chapter Documentation Elements). The definitions stand in specs/,
//! and proofs/ has small theorems on them.
#![tactic(auto)]
