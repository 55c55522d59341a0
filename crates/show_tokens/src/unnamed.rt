//! What is told of a token whose first part is neither a word of the grammar nor an instruction's name.
ghost use Rattle.std.specs.Prelude.{◌≡◌, ◌++◌, OnOk};
ghost use Rattle.show_tokens.specs.Unnamed.{unnamed_line};

use crate::foreign::{
    append_comment, append_public, append_pushed, append_run, append_separator, has_semicolon,
    is_number, is_slashes,
};
use crate::other_names::append_other_name;
use crate::paths::names_procedure;
use masm_tree::Header;
use std::alloc::Global;
use vm_field::{Bytes, Memory};

/// Adds what is told of a token whose first part is neither a word of the grammar nor an instruction's name, by its text and
/// that part.
pub fn append_by_text(
    alloc: Global,
    text: &mut Bytes,
    is_kernel: bool,
    procedures: &[Header],
    token: &[u8],
    first: &[u8],
) -> Result<(), Memory>
    ensures { OnOk result (text.new ≡ text.old ++ unnamed_line is_kernel procedures.now token.now first.now) }
{
    if is_slashes(token) {
        append_comment(text)
    } else if has_semicolon(token) {
        append_separator(text)
    } else if is_number(token) {
        append_pushed(text, token)
    } else if names_procedure(is_kernel, procedures, first) {
        append_run(text, is_kernel, first)
    } else if first == b"pub".as_slice() {
        append_public(text, is_kernel)
    } else {
        append_other_name(alloc, text, first)
    }
}
