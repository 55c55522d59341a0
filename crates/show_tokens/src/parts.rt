//! What is told of a token of a wrong form, by its parts.
ghost use Rattle.std.specs.Prelude.{◌≡◌, ◌++◌, map, option_map, OnOk};
ghost use Rattle.show_tokens.specs.Forms.{written as written_as};
ghost use Rattle.show_tokens.specs.Parts.{counted_line, form_line, parameters_line, part_line, parts_line, plain_line};

use crate::foreign::{
    append_error, append_expression, append_if_false, append_word, has_error, has_expression,
    has_word, is_if_false,
};
use crate::forms::{
    append_count, append_no_number, append_written, first_no_number, form_by, written,
};
use crate::paths::{append_path, has_path};
use masm_instr::Form;
use masm_reading::Consts;
use masm_tree::Header;
use std::alloc::Global;
use vm_field::{Bytes, Memory};

fn append_part(text: &mut Bytes, form: &Form, part: Option<&[u8]>) -> Result<(), Memory>
    ensures { OnOk result (text.new ≡ text.old ++ part_line form.now (option_map (λ part. part.now) part.entry)) }
{
    match part {
        Some(part) => append_no_number(text, form, part),
        None => Ok(()),
    }
}

// Adds what is told of parameters by their count.
fn append_counted(
    text: &mut Bytes,
    consts: &Consts,
    first: &[u8],
    more: &[&[u8]],
    form: Option<Form>,
) -> Result<(), Memory>
    ensures { OnOk result (text.new ≡ text.old ++ counted_line consts.now first.now (map (λ part. part.now) more.now) form) }
{
    let Some(form) = form else {
        return Ok(());
    };
    if more.len() < form.least || form.most < more.len() {
        return append_count(text, first, &form, more.len());
    }
    append_part(text, &form, first_no_number(consts, &form, more))
}

fn append_parameters(
    text: &mut Bytes,
    consts: &Consts,
    first: &[u8],
    more: &[&[u8]],
) -> Result<(), Memory>
    ensures { OnOk result (text.new ≡ text.old ++ parameters_line consts.now first.now (map (λ part. part.now) more.now)) }
{
    if has_word(first, more) {
        append_word(text)
    } else if has_error(more) {
        append_error(text)
    } else {
        append_counted(text, consts, first, more, form_by(first))
    }
}

fn append_form(
    text: &mut Bytes,
    consts: &Consts,
    first: &[u8],
    more: &[&[u8]],
) -> Result<(), Memory>
    ensures { OnOk result (text.new ≡ text.old ++ form_line consts.now first.now (map (λ part. part.now) more.now) (written_as first.now)) }
{
    match written(first) {
        Some(form) => append_written(text, first, form),
        None => append_parameters(text, consts, first, more),
    }
}

// Adds what is told of a token of a wrong form without a path.
fn append_plain(
    alloc: Global,
    text: &mut Bytes,
    consts: &Consts,
    first: &[u8],
    more: &[&[u8]],
) -> Result<(), Memory>
    ensures { OnOk result (text.new ≡ text.old ++ plain_line consts.now first.now (map (λ part. part.now) more.now)) }
{
    if is_if_false(first, more) {
        append_if_false(text)
    } else if has_expression(alloc, first, more)? {
        append_expression(text)
    } else {
        append_form(text, consts, first, more)
    }
}

/// Adds what is told of a token of a wrong form, by its parts.
pub fn append_parts(
    alloc: Global,
    text: &mut Bytes,
    is_kernel: bool,
    procedures: &[Header],
    consts: &Consts,
    first: &[u8],
    more: &[&[u8]],
) -> Result<(), Memory>
    ensures { OnOk result (text.new ≡ text.old
        ++ parts_line is_kernel procedures.now consts.now first.now (map (λ part. part.now) more.now)) }
{
    if has_path(alloc, first, more)? {
        append_path(alloc, text, is_kernel, procedures, first, more)
    } else {
        append_plain(alloc, text, consts, first, more)
    }
}
