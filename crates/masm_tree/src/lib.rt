//! The syntax trees of assembly sources, and what each token reads as (docs/ASSEMBLY.md): its
//! terminal, and the first cause for which it is refused by itself.
#![tactic(auto)]

mod keyword;
mod parts;
mod reading;
mod refusal;
mod terminal;
mod tree;

pub use reading::classify;
pub use refusal::{Cause, Stop, cause_text};
pub use terminal::{Header, Leaf, Role, Symbol, Terminal};
pub use tree::{Ast, Position, Proc, Stmt};
