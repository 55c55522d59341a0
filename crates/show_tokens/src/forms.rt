//! How tokens are written, in words.
ghost use Rattle.std.specs.Prelude.{◌≡◌, [], ◌++◌, map, option_map, slice_index_or, OnOk};
ghost use Rattle.show_tokens.specs.Forms.{between_line, count_line, exact_line, first_no_number, first_outside, form_by, has_arithmetic, is_arithmetic, is_capital, is_outside, is_procedure, is_use, missing_text, no_number_line, none_line, one_line, range_line, span_line, written, written_line};

use crate::words::{append_both, append_sentence, behind, word};
use itoa::Buffer;
use masm_instr::{Form, name_of};
use masm_reading::{Consts, read_parameter};
use vm_field::{Bytes, Memory};

const REPEAT: Form = Form {
    least: 1,
    most: 1,
    constants: true,
    low: 1,
    high: 10000,
};

/// The first of some parts, and nothing where there is none.
pub fn first_part<'a>(parts: &[&'a [u8]]) -> &'a [u8]
    ensures { result.now ≡ slice_index_or (map (λ part. part.now) parts.entry.now) 0 [] }
{
    match parts.first() {
        Some(part) => part,
        None => b"",
    }
}

/// Whether a token begins a procedure, by its first part.
pub fn is_procedure(first: &[u8]) -> bool
    ensures { result ≡ is_procedure first.now }
{
    first == b"proc".as_slice() || first == b"export".as_slice()
}

// Whether a token names a procedure.
pub(crate) fn is_use(first: &[u8]) -> bool
    ensures { result ≡ is_use first.now }
{
    first == b"exec".as_slice()
        || first == b"call".as_slice()
        || first == b"syscall".as_slice()
        || first == b"procref".as_slice()
}

// How a token of the grammar is written, by its first part; none where its numbers are those of an instruction.
pub(crate) fn written(first: &[u8]) -> Option<&'static str>
    ensures { option_map (λ form. form.now) result ≡ written first.now }
{
    if first == b"const".as_slice() {
        Some(".NAME=v, with a name in upper case and a number")
    } else if is_procedure(first) {
        Some(".name or with .n behind, with a name in lower case and a number of locals")
    } else if first == b"if".as_slice() || first == b"while".as_slice() {
        Some(".true")
    } else if is_use(first) {
        Some(".name, with a name in lower case")
    } else if first == b"begin".as_slice()
        || first == b"else".as_slice()
        || first == b"end".as_slice()
        || first == b"dynexec".as_slice()
    {
        Some(" alone")
    } else {
        None
    }
}

pub(crate) fn append_written(text: &mut Bytes, first: &[u8], form: &str) -> Result<(), Memory>
    ensures { OnOk result (text.new ≡ text.old ++ written_line first.now form.now) }
{
    let first = word(first);
    append_sentence(text, &[first, b" is written ", first, form.as_bytes()])
}

// The numbers that a token takes, by its first part; none but those of instructions and of `repeat`.
pub(crate) fn form_by(first: &[u8]) -> Option<Form>
    ensures { result ≡ form_by first.now }
{
    if first == b"repeat".as_slice() {
        return Some(REPEAT);
    }
    match name_of(first) {
        Some(name) => Some(name.form()),
        None => None,
    }
}

fn append_none(text: &mut Bytes, first: &[u8], count: usize) -> Result<(), Memory>
    ensures { OnOk result (text.new ≡ text.old ++ none_line first.now count) }
{
    let mut buffer = Buffer::new();
    let count = buffer.format(count).as_bytes();
    append_sentence(text, &[word(first), b" wants no parameter, not ", count])
}

fn append_exact(text: &mut Bytes, first: &[u8], least: usize, count: usize) -> Result<(), Memory>
    ensures { OnOk result (text.new ≡ text.old ++ exact_line first.now least count) }
{
    let (mut wanted, mut stand) = (Buffer::new(), Buffer::new());
    let least = wanted.format(least).as_bytes();
    let count = stand.format(count).as_bytes();
    append_sentence(
        text,
        &[word(first), b" wants ", least, b" parameter, not ", count],
    )
}

fn append_between(
    text: &mut Bytes,
    first: &[u8],
    least: usize,
    most: usize,
    count: usize,
) -> Result<(), Memory>
    ensures { OnOk result (text.new ≡ text.old ++ between_line first.now least most count) }
{
    let (mut low, mut high, mut stand) = (Buffer::new(), Buffer::new(), Buffer::new());
    let least = low.format(least).as_bytes();
    let most = high.format(most).as_bytes();
    let count = stand.format(count).as_bytes();
    append_sentence(
        text,
        &[
            word(first),
            b" wants ",
            least,
            b" to ",
            most,
            b" parameters, not ",
            count,
        ],
    )
}

// Adds what is told of parameters of a wrong count.
pub(crate) fn append_count(
    text: &mut Bytes,
    first: &[u8],
    form: &Form,
    count: usize,
) -> Result<(), Memory>
    ensures { OnOk result (text.new ≡ text.old ++ count_line first.now form.now count) }
{
    if form.most == 0 {
        append_none(text, first, count)
    } else if form.least == form.most {
        append_exact(text, first, form.least, count)
    } else {
        append_between(text, first, form.least, form.most, count)
    }
}

// Whether a part begins as a constant's name does.
pub(crate) fn is_capital(part: &[u8]) -> bool
    ensures { result ≡ is_capital part.now }
{
    match part.first() {
        Some(byte) => matches!(byte, b'A'..=b'Z'),
        None => false,
    }
}

fn is_arithmetic(byte: u8) -> bool
    ensures { result ≡ is_arithmetic byte }
{
    matches!(byte, b'*' | b'+' | b'-' | b'/')
}

// Whether arithmetic stands behind the first byte of a part.
fn has_arithmetic(part: &[u8]) -> bool
    ensures { result ≡ has_arithmetic part.now }
{
    behind(part, 1).iter().any(|byte| is_arithmetic(*byte))
}

// What a part is that gives no number: with arithmetic or without, a capital first or not, where constants may stand or not.
fn missing_text(has_arithmetic: bool, is_capital: bool, constants: bool) -> &'static str
    ensures { result.now ≡ missing_text has_arithmetic is_capital constants }
{
    if has_arithmetic && constants {
        " is no number: a parameter is one number or one constant, without arithmetic"
    } else if !is_capital {
        " is no number"
    } else if constants {
        " is not defined: constants are defined before their first use"
    } else {
        " is no number, and no constant may stand here"
    }
}

pub(crate) fn append_no_number(text: &mut Bytes, form: &Form, part: &[u8]) -> Result<(), Memory>
    ensures { OnOk result (text.new ≡ text.old ++ no_number_line form.now part.now) }
{
    let told = missing_text(has_arithmetic(part), is_capital(part), form.constants);
    append_both(text, word(part), told.as_bytes())
}

// The first part that gives no number.
pub(crate) fn first_no_number<'a>(
    consts: &Consts,
    form: &Form,
    parts: &[&'a [u8]],
) -> Option<&'a [u8]>
    ensures { option_map (λ part. part.now) result ≡ first_no_number consts.now form.now (map (λ part. part.now) parts.entry.now) }
{
    for part in parts {
        if read_parameter(consts, form.constants, part).is_none() {
            return Some(*part);
        }
    }
    None
}

fn is_outside(form: &Form, number: Option<u128>) -> bool
    ensures { result ≡ is_outside form.now number }
{
    match number {
        Some(number) => number < form.low || form.high < number,
        None => false,
    }
}

// The first part that gives a number which is not in the form's range.
pub(crate) fn first_outside<'a>(
    consts: &Consts,
    form: &Form,
    parts: &[&'a [u8]],
) -> Option<&'a [u8]>
    ensures { option_map (λ part. part.now) result ≡ first_outside consts.now form.now (map (λ part. part.now) parts.entry.now) }
{
    for part in parts {
        if is_outside(form, read_parameter(consts, form.constants, part)) {
            return Some(*part);
        }
    }
    None
}

fn append_one(text: &mut Bytes, first: &[u8], low: u128, part: &[u8]) -> Result<(), Memory>
    ensures { OnOk result (text.new ≡ text.old ++ one_line first.now low part.now) }
{
    let mut buffer = Buffer::new();
    let low = buffer.format(low).as_bytes();
    let (between, behind) = (b" alone, and ", b" is another number");
    append_sentence(
        text,
        &[word(first), b" takes ", low, between, word(part), behind],
    )
}

fn append_span(
    text: &mut Bytes,
    first: &[u8],
    low: u128,
    high: u128,
    part: &[u8],
) -> Result<(), Memory>
    ensures { OnOk result (text.new ≡ text.old ++ span_line first.now low high part.now) }
{
    let (mut least, mut greatest) = (Buffer::new(), Buffer::new());
    let low = least.format(low).as_bytes();
    let high = greatest.format(high).as_bytes();
    append_sentence(
        text,
        &[
            word(first),
            b" takes numbers from ",
            low,
            b" to ",
            high,
            b", and ",
            word(part),
            b" is none of them",
        ],
    )
}

// Adds what is told of a part that gives a number outside of a form's range.
pub(crate) fn append_range(
    text: &mut Bytes,
    first: &[u8],
    form: &Form,
    part: &[u8],
) -> Result<(), Memory>
    ensures { OnOk result (text.new ≡ text.old ++ range_line first.now form.now part.now) }
{
    if form.low == form.high {
        append_one(text, first, form.low, part)
    } else {
        append_span(text, first, form.low, form.high, part)
    }
}
