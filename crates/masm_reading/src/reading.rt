ghost use Rattle.std.specs.Prelude.{◌≡◌, ◌==◌, map, IfOk, OnOk, bytes_eq};
ghost use Rattle.std.specs.List.{list_all, list_any, slice_split};
ghost use Rattle.masm_instr.specs.Instructions.{is_in_range, IsInForm};
ghost use Rattle.answers.specs.Gives.{Gives};
ghost use Rattle.masm_reading.specs.Reading.{parameter_of, parameters_of, formed, is_unsupported, parts_of, read_parts, read, refusal_in};

use crate::constant::Consts;
use crate::number::read_number;
use crate::refusal::InstrError;
use masm_instr::{Form, Instr, Name, Numbers, name_of};
use std::alloc::{AllocError, Global};

/// Puts the parts of a text into a list, in place of what it holds: what stands between the bytes that
/// are this mark. There is always a first.
pub fn split_into<'a>(parts: &mut Vec<&'a [u8]>, text: &'a [u8], mark: u8) -> Result<(), AllocError>
    ensures { OnOk result (map (λ part. part.now) parts.new.items ≡ slice_split (λ b. b == mark) text.entry.now) }
{
    parts.clear();
    for part in text.split(|byte| *byte == mark) {
        parts.push(part)?;
    }
    Ok(())
}

/// The parts of a text, as `split_into` gives them.
pub fn split<'a>(alloc: Global, text: &'a [u8], mark: u8) -> Result<Vec<&'a [u8]>, AllocError>
    ensures { IfOk result (λ parts. map (λ part. part.now) parts.items ≡ slice_split (λ b. b == mark) text.entry.now) }
{
    let mut parts = Vec::new(alloc);
    split_into(&mut parts, text, mark)?;
    Ok(parts)
}

fn is_among(words: &[&[u8]], text: &[u8]) -> bool
    ensures { result ≡ list_any (λ word. bytes_eq word text.now) (map (λ word. word.now) words.now) }
{
    for word in words {
        if *word == text {
            return true;
        }
    }
    false
}

// Whether the first part of a token, or the whole token, is of an instruction that this machine
// does not have.
#[tactic(auto, unfolding(crate::specs::Reading::is_unsupported, crate::specs::Reading::unsupported))]
fn is_unsupported(token: &[u8], first: &[u8]) -> bool
    ensures { result ≡ is_unsupported token.now first.now }
{
    let words: [&[u8]; 21] = [
        b"ext2add",
        b"ext2sub",
        b"ext2mul",
        b"ext2div",
        b"ext2neg",
        b"ext2inv",
        b"fri_ext2fold4",
        b"rcomb_base",
        b"mtree_get",
        b"mtree_set",
        b"mtree_merge",
        b"mtree_verify",
        b"mem_stream",
        b"adv_pipe",
        b"dyncall",
        b"breakpoint",
        b"debug",
        b"trace",
        b"emit",
        b"adv",
        b"use",
    ];
    is_among(&words, first) || token == b"exp".as_slice()
}

/// The number that a parameter gives: a number itself, or where constants may stand the name of
/// one.
#[tactic(auto, unfolding(crate::specs::Reading::parameter_of))]
pub fn read_parameter(consts: &Consts, constants: bool, part: &[u8]) -> Option<u128>
    ensures { result ≡ parameter_of consts.now constants part.now }
{
    match read_number(part) {
        Some(number) => Some(number),
        None if constants => Some(u128::from(consts.value_of(part)?.value())),
        None => None,
    }
}

// The numbers that the parts give, where each gives one.
fn read_parameters(
    alloc: Global,
    consts: &Consts,
    constants: bool,
    parts: &[&[u8]],
) -> Result<Option<Numbers>, AllocError>
    ensures { IfOk result (λ numbers. numbers ≡ parameters_of consts.now constants (map (λ part. part.now) parts.now)) }
{
    let mut numbers = Numbers::with_capacity(alloc, parts.len())?;
    for part in parts {
        let Some(number) = read_parameter(consts, constants, part) else {
            return Ok(None);
        };
        numbers.push(number)?;
    }
    Ok(Some(numbers))
}

fn are_in_range(form: &Form, numbers: &[u128]) -> bool
    ensures { result ≡ list_all (is_in_range form.now) numbers.now }
{
    numbers
        .iter()
        .all(|number| form.low <= *number && *number <= form.high)
}

// The instruction of a name with the parts that stand behind the name.
#[tactic(auto, unfolding(crate::specs::Reading::formed))]
fn read_named(
    alloc: Global,
    consts: &Consts,
    name: Name,
    parts: &[&[u8]],
) -> Result<Instr, InstrError>
    ensures { Gives (λ x. x) refusal_in result (formed consts.now (map (λ part. part.now) parts.now) name) }
{
    let form = name.form();
    if parts.len() < form.least || form.most < parts.len() {
        return Err(InstrError::Syntax);
    }
    let Some(numbers) = read_parameters(alloc, consts, form.constants, parts)? else {
        return Err(InstrError::Syntax);
    };
    if !are_in_range(&form, numbers.as_slice()) {
        return Err(InstrError::NumberRange);
    }
    Ok(Instr::new(name, numbers))
}

/// The instruction that a token of these parts gives, with the constants defined before it.
///
/// A word of the grammar that begins no instruction, as `if` or `end`, is an unknown instruction
/// here.
#[tactic(auto, unfolding(crate::specs::Reading::is_unsupported), using(crate::proofs::NamesLemmas::name_is_supported))]
pub fn read_parts(
    alloc: Global,
    token: &[u8],
    parts: &[&[u8]],
    consts: &Consts,
) -> Result<Instr, InstrError>
    ensures { Gives (λ x. x) refusal_in result (read_parts consts.now token.now (map (λ part. part.now) parts.now)) }
{
    let Some((first, parts)) = parts.split_first() else {
        return Err(InstrError::UnknownInstruction);
    };
    match name_of(first) {
        Some(_) if token == b"exp".as_slice() => Err(InstrError::Unsupported),
        Some(name) => read_named(alloc, consts, name, parts),
        None if is_unsupported(token, first) => Err(InstrError::Unsupported),
        None => Err(InstrError::UnknownInstruction),
    }
}

/// The instruction that a token gives, with the constants defined before it.
#[tactic(auto, unfolding(crate::specs::Reading::read))]
pub fn read_instr(alloc: Global, token: &[u8], consts: &Consts) -> Result<Instr, InstrError>
    ensures { Gives (λ x. x) refusal_in result (read consts.now token.now) }
{
    let parts = split(alloc, token, b'.')?;
    read_parts(alloc, token, parts.as_slice(), consts)
}
