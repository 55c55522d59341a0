//! Numbers out of the range that their token takes.
ghost use Rattle.std.specs.Prelude.{◌≡◌, ◌++◌, map, option_map, OnOk};
ghost use Rattle.show_tokens.specs.Numbers.{number_line, numbers_line, outside_part_line};

use crate::forms::{append_range, first_outside, form_by};
use crate::words::append_sentence;
use masm_instr::Form;
use masm_reading::Consts;
use vm_field::{Bytes, Memory};

fn append_outside_part(
    text: &mut Bytes,
    first: &[u8],
    form: &Form,
    part: Option<&[u8]>,
) -> Result<(), Memory>
    ensures { OnOk result (text.new ≡ text.old ++ outside_part_line first.now form.now (option_map (λ part. part.now) part.entry)) }
{
    match part {
        Some(part) => append_range(text, first, form, part),
        None => Ok(()),
    }
}

fn append_numbers(
    text: &mut Bytes,
    consts: &Consts,
    first: &[u8],
    more: &[&[u8]],
    form: Option<Form>,
) -> Result<(), Memory>
    ensures { OnOk result (text.new ≡ text.old ++ numbers_line consts.now first.now (map (λ part. part.now) more.now) form) }
{
    match form {
        Some(form) => append_outside_part(text, first, &form, first_outside(consts, &form, more)),
        None => Ok(()),
    }
}

/// Adds what is told of a token with a number out of its range: a constant, an instruction or `repeat`.
pub fn append_number_line(
    text: &mut Bytes,
    consts: &Consts,
    first: &[u8],
    more: &[&[u8]],
) -> Result<(), Memory>
    ensures { OnOk result (text.new ≡ text.old ++ number_line consts.now first.now (map (λ part. part.now) more.now)) }
{
    if first == b"const".as_slice() {
        return append_sentence(text, &[b"a constant is at most 18446744069414584320"]);
    }
    append_numbers(text, consts, first, more, form_by(first))
}
