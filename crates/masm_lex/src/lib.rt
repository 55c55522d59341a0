//! The tokens of an assembly source, each with its place: the longest runs of bytes between blanks
//! and comments. The definitions stand in `specs/`.
#![tactic(auto)]

mod cursor;
mod lexer;
mod list;
mod refusal;

pub use cursor::{Cursor, end_place};
pub use lexer::lex;
pub use list::{Token, Tokens, token_text, tokens_are_parts, tokens_ascend};
pub use refusal::LexError;

/// The most bytes that a source may have.
pub const MAX_SOURCE: usize = 1_048_576;
