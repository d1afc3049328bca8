//! From a library to its schema; and the account of an element, handed on.
#![tactic(auto)]

pub mod compiling;
mod explaining;
mod lines;

pub use compiling::{CompileRefusal, compile, compile_checked};
pub use explaining::{explain, explain_checked};
