//! XML 1.0: characters, names and tokens, one character after another.
#![tactic(auto)]

mod character;
mod declaration;
mod lexer;
mod names;
mod table;
mod token;

pub use character::{is_char, is_space};
pub use lexer::{Fault, Lexer};
pub use names::{is_name_char, is_name_start, is_ncname};
pub use table::TextTable;
pub use token::{Token, WrittenAttr, WrittenAttrs, WrittenName, WrittenTag};
