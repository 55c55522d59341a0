//! What is written otherwise in other assemblies, and how it is written here.
ghost use Rattle.std.specs.Prelude.{◌≡◌, ◌++◌, map, option_map, IfOk, OnOk};
ghost use Rattle.std.specs.List.{list_all, list_any};
ghost use Rattle.show_tokens.specs.Foreign.{apart_line, comment_line, error_line, expression_line, gives_number, has_expression, has_semicolon, has_word, if_false_line, imports_line, is_apart, is_bracket, is_computed, is_digit, is_error, is_expression, is_if_false, is_long, is_number, is_operator, is_slashes, name_apart_line, public_line, pushed_line, run_line, separator_line, sides_of, unsupported_line, wants_number, word_line};

use crate::forms::{first_part, form_by, is_capital};
use crate::words::{append_sentence, behind, front, word};
use masm_instr::Form;
use masm_reading::{read_number, split};
use std::alloc::Global;
use vm_field::{Bytes, Memory};

fn append_imports(text: &mut Bytes, is_kernel: bool) -> Result<(), Memory>
    ensures { OnOk result (text.new ≡ text.old ++ imports_line is_kernel) }
{
    if is_kernel {
        append_sentence(
            text,
            &[b"there are no imports, and a kernel has no library: it defines what it uses"],
        )
    } else {
        append_sentence(
            text,
            &[
                b"there are no imports: the library's procedures are called by their names, as exec.u64_wrapping_add",
            ],
        )
    }
}

/// Adds what is told of an instruction that this machine does not have.
pub fn append_unsupported(text: &mut Bytes, is_kernel: bool, first: &[u8]) -> Result<(), Memory>
    ensures { OnOk result (text.new ≡ text.old ++ unsupported_line is_kernel first.now) }
{
    if first == b"use".as_slice() {
        return append_imports(text, is_kernel);
    }
    if first == b"exp".as_slice() {
        return append_sentence(text, &[b"exp is written with its exponent, as exp.5"]);
    }
    append_sentence(text, &[b"this machine has no ", word(first)])
}

// Whether a token begins with `//`.
pub(crate) fn is_slashes(token: &[u8]) -> bool
    ensures { result ≡ is_slashes token.now }
{
    front(token, 2) == b"//".as_slice()
}

pub(crate) fn append_comment(text: &mut Bytes) -> Result<(), Memory>
    ensures { OnOk result (text.new ≡ text.old ++ comment_line) }
{
    append_sentence(
        text,
        &[b"a comment begins with # and goes on to the end of its line"],
    )
}

/// Whether a `;` stands in a token.
pub fn has_semicolon(token: &[u8]) -> bool
    ensures { result ≡ has_semicolon token.now }
{
    token.iter().any(|byte| *byte == b';')
}

/// Adds what is told of a token with a `;`.
pub fn append_separator(text: &mut Bytes) -> Result<(), Memory>
    ensures { OnOk result (text.new ≡ text.old ++ separator_line) }
{
    append_sentence(
        text,
        &[b"instructions are separated by blanks, not by ;, and a comment begins with #"],
    )
}

pub(crate) fn is_number(text: &[u8]) -> bool
    ensures { result ≡ is_number text.now }
{
    read_number(text).is_some()
}

pub(crate) fn append_pushed(text: &mut Bytes, token: &[u8]) -> Result<(), Memory>
    ensures { OnOk result (text.new ≡ text.old ++ pushed_line token.now) }
{
    let behind = b", and a parameter stands behind its instruction and a dot";
    append_sentence(text, &[b"a number is pushed by push.", word(token), behind])
}

fn wants_number(form: Option<Form>) -> bool
    ensures { result ≡ wants_number form }
{
    match form {
        Some(form) => 0 < form.least,
        None => false,
    }
}

fn gives_number(text: Option<&[u8]>) -> bool
    ensures { result ≡ gives_number (option_map (λ text. text.now) text.entry) }
{
    match text {
        Some(text) => is_number(text),
        None => false,
    }
}

/// Whether a token lacks the parameter that it wants, and a number stands behind it.
pub fn is_apart(first: &[u8], more: &[&[u8]], next: Option<&[u8]>) -> bool
    ensures { result ≡ is_apart first.now (map (λ part. part.now) more.now) (option_map (λ text. text.now) next.entry) }
{
    more.is_empty() && wants_number(form_by(first)) && gives_number(next)
}

/// Adds what is told of a token without its parameter, which stands behind it.
pub fn append_apart(text: &mut Bytes, first: &[u8], next: &[u8]) -> Result<(), Memory>
    ensures { OnOk result (text.new ≡ text.old ++ apart_line first.now next.now) }
{
    let first = word(first);
    let between = b" wants its parameter behind a dot, as ";
    append_sentence(text, &[first, between, first, b".", word(next)])
}

pub(crate) fn append_run(text: &mut Bytes, is_kernel: bool, name: &[u8]) -> Result<(), Memory>
    ensures { OnOk result (text.new ≡ text.old ++ run_line is_kernel name.now) }
{
    let name = word(name);
    let between = b" is a procedure: it is run by exec.";
    if is_kernel {
        append_sentence(text, &[name, between, name])
    } else {
        append_sentence(text, &[name, between, name, b" or call.", name])
    }
}

pub(crate) fn append_public(text: &mut Bytes, is_kernel: bool) -> Result<(), Memory>
    ensures { OnOk result (text.new ≡ text.old ++ public_line is_kernel) }
{
    if is_kernel {
        append_sentence(
            text,
            &[
                b"there is no pub: a procedure is proc.name, and one that programs may reach is export.name",
            ],
        )
    } else {
        append_sentence(
            text,
            &[b"there is no pub: a procedure is proc.name, and only a kernel has export"],
        )
    }
}

/// Adds what is told of a token without its name, which stands behind it.
pub fn append_name_apart(text: &mut Bytes, first: &[u8], next: &[u8]) -> Result<(), Memory>
    ensures { OnOk result (text.new ≡ text.old ++ name_apart_line first.now next.now) }
{
    let first = word(first);
    let (written, example) = (b" is written ", b".name, as ");
    append_sentence(
        text,
        &[first, written, first, example, first, b".", word(next)],
    )
}

// Whether a token is `if.false`.
pub(crate) fn is_if_false(first: &[u8], more: &[&[u8]]) -> bool
    ensures { result ≡ is_if_false first.now (map (λ part. part.now) more.now) }
{
    first == b"if".as_slice() && more.len() == 1 && first_part(more) == b"false".as_slice()
}

pub(crate) fn append_if_false(text: &mut Bytes) -> Result<(), Memory>
    ensures { OnOk result (text.new ≡ text.old ++ if_false_line) }
{
    append_sentence(
        text,
        &[b"there is no if.false: its body stands behind the else of an if.true"],
    )
}

fn is_operator(byte: u8) -> bool
    ensures { result ≡ is_operator byte }
{
    matches!(byte, b'('..=b'+' | b'-' | b'/')
}

fn has_operator(text: &[u8]) -> bool
    ensures { result ≡ list_any is_operator text.now }
{
    text.iter().any(|byte| is_operator(*byte))
}

// Whether a text begins as a constant's name does, or has an operator.
fn is_expression(text: &[u8]) -> bool
    ensures { result ≡ is_expression text.now }
{
    is_capital(text) || has_operator(text)
}

// Whether an expression stands behind the one `=`.
fn is_computed(sides: &[&[u8]]) -> bool
    ensures { result ≡ is_computed (map (λ side. side.now) sides.now) }
{
    match sides {
        [_, value] => is_expression(value),
        _ => false,
    }
}

fn is_computed_part(alloc: Global, part: &[u8]) -> Result<bool, Memory>
    ensures { IfOk result (λ is. is ≡ is_computed (sides_of part.now)) }
{
    let sides = split(alloc, part, b'=')?;
    Ok(is_computed(sides.as_slice()))
}

// Whether a token gives a constant an expression.
pub(crate) fn has_expression(alloc: Global, first: &[u8], more: &[&[u8]]) -> Result<bool, Memory>
    ensures { IfOk result (λ has. has ≡ has_expression first.now (map (λ part. part.now) more.now)) }
{
    let is_computed = is_computed_part(alloc, first_part(more))?;
    Ok(first == b"const".as_slice() && more.len() == 1 && is_computed)
}

pub(crate) fn append_expression(text: &mut Bytes) -> Result<(), Memory>
    ensures { OnOk result (text.new ≡ text.old ++ expression_line) }
{
    append_sentence(
        text,
        &[b"a constant is one number, without arithmetic and without another constant"],
    )
}

fn is_bracket(part: &[u8]) -> bool
    ensures { result ≡ is_bracket part.now }
{
    match part.first() {
        Some(byte) => *byte == b'[',
        None => false,
    }
}

// Whether a part begins with a bracket.
fn has_bracket(parts: &[&[u8]]) -> bool
    ensures { result ≡ list_any is_bracket (map (λ part. part.now) parts.now) }
{
    for part in parts {
        if is_bracket(part) {
            return true;
        }
    }
    false
}

fn is_digit(byte: u8) -> bool
    ensures { result ≡ is_digit byte }
{
    matches!(byte, b'0'..=b'9' | b'A'..=b'F' | b'a'..=b'f')
}

fn are_digits(text: &[u8]) -> bool
    ensures { result ≡ list_all is_digit text.now }
{
    text.iter().all(|byte| is_digit(*byte))
}

// Whether a part is `0x` and 64 digits.
fn is_long(part: &[u8]) -> bool
    ensures { result ≡ is_long part.now }
{
    front(part, 2) == b"0x".as_slice() && part.len() == 66 && are_digits(behind(part, 2))
}

fn has_long(parts: &[&[u8]]) -> bool
    ensures { result ≡ list_any is_long (map (λ part. part.now) parts.now) }
{
    for part in parts {
        if is_long(part) {
            return true;
        }
    }
    false
}

// Whether a token has a word in brackets, or pushes one as one number.
pub(crate) fn has_word(first: &[u8], more: &[&[u8]]) -> bool
    ensures { result ≡ has_word first.now (map (λ part. part.now) more.now) }
{
    has_bracket(more) || (first == b"push".as_slice() && has_long(more))
}

pub(crate) fn append_word(text: &mut Bytes) -> Result<(), Memory>
    ensures { OnOk result (text.new ≡ text.old ++ word_line) }
{
    append_sentence(
        text,
        &[b"a word is pushed as four numbers, as push.1.2.3.4"],
    )
}

fn is_error(part: &[u8]) -> bool
    ensures { result ≡ is_error part.now }
{
    part == b"err".as_slice() || front(part, 4) == b"err=".as_slice()
}

// Whether a part names an error code.
pub(crate) fn has_error(parts: &[&[u8]]) -> bool
    ensures { result ≡ list_any is_error (map (λ part. part.now) parts.now) }
{
    for part in parts {
        if is_error(part) {
            return true;
        }
    }
    false
}

pub(crate) fn append_error(text: &mut Bytes) -> Result<(), Memory>
    ensures { OnOk result (text.new ≡ text.old ++ error_line) }
{
    append_sentence(
        text,
        &[b"there are no error codes: a trap tells its cause and its clock"],
    )
}
