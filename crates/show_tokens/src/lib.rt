//! What a token of a refused source could have meant, in words (docs/SHOW.md, "why"): how it is written, how that is written here which
//! other assemblies write otherwise, and which of its parameters does not fit.
#![tactic(auto)]

mod foreign;
mod forms;
mod numbers;
mod other_names;
mod parts;
mod paths;
mod unnamed;
mod words;

pub use foreign::{
    append_apart, append_name_apart, append_separator, append_unsupported, has_semicolon, is_apart,
};
pub use forms::{first_part, is_procedure};
pub use numbers::append_number_line;
pub use parts::append_parts;
pub use unnamed::append_by_text;
pub use words::{append_both, append_sentence, front, word};
