//! Evidence, line by line, with the operations of each batch in place of its elements.
ghost use Rattle.std.specs.Prelude.{◌≡◌, ◌<◌, ◌-◌, ◌^◌, ◌==◌, ◌++◌, if◌then◌else◌, codes, length, map, option_map, None, Some, IfOk, IfSome, OnOk};
ghost use Rattle.std.specs.List.{flat_map, slice_split};
ghost use Rattle.answers.specs.Gives.{Gives};
ghost use Rattle.show_text.specs.EvidenceLines.{elements_of, item_text, items_line, told_as, told_batch, told_by, told_line};
ghost use Rattle.show_text.specs.EvidenceText.{first_told, told_evidence};
ghost use Rattle.show_text.specs.Reads.{wrong_line};

use crate::form::{Form, form_of, has_form};
use decimal_text::append_element;
use op_pack::unpack;
use rpo_hash::next_line;
use std::alloc::Global;
use thiserror::Error;
use vm_field::{Bytes, Felt, Felts, Memory};
use vm_ops::Item;

/// Why evidence is not told.
#[derive(Clone, Copy, Debug, PartialEq, Eq, Error)]
pub enum EvidenceError {
    /// This line is the first that is none of evidence, or lacks its line feed. Lines count from 1.
    #[error("line {line} is no line of evidence")]
    Bad { line: u32 },
    /// Memory was refused.
    #[error("out of memory")]
    Memory,
}

impl From<Memory> for EvidenceError {
    ghost use Rattle.std.specs.Prelude.{◌≡◌};
    ghost use Rattle.show_text.specs.declared.evidence.EvidenceError.TheVariants as error;

    ghost from_gives = { λ _ e. e ≡ error.Memory };

    fn from(_error: Memory) -> EvidenceError {
        EvidenceError::Memory
    }
}

/// The lines of evidence as they are told: a batch by its operations, any other one as it stands. Each line is looked at by itself.
///
/// # Errors
///
/// `Bad` with the first line that is none of evidence, `Memory` where the system gave none for the text.
pub fn told_evidence(alloc: Global, bytes: &[u8]) -> Result<Bytes, EvidenceError>
    requires { length bytes.now < 2 ^ 32 - 1 }
    ensures { Gives (λ text. text) wrong_line result (told_evidence bytes.now) }
{
    let mut text = Bytes::new(alloc);
    let mut rest = bytes;
    let mut line = 1;
    while !rest.is_empty() {
        let Some(first) = first_told(alloc, rest)? else {
            return Err(EvidenceError::Bad { line });
        };
        text.append(first.told.as_slice())?;
        rest = first.behind;
        line += 1;
    }
    Ok(text)
}

// The first line of a text, as it is told.
#[derive(Drop)]
struct First<'a> {
    told: Bytes,

    // What stands behind the line.
    behind: &'a [u8],
}

fn first_told(alloc: Global, bytes: &[u8]) -> Result<Option<First<'_>>, Memory>
    ensures is { IfOk result (λ first. option_map (λ f. (f.told, f.behind.now)) first ≡ first_told bytes.entry.now) }
    ensures shorter { IfOk result (λ first. IfSome first (λ f. length f.behind.now < length bytes.entry.now)) }
{
    let Some((line, behind)) = next_line(bytes) else {
        return Ok(None);
    };
    match told_line(alloc, line)? {
        Some(told) => Ok(Some(First { told, behind })),
        None => Ok(None),
    }
}

// A line without its line feed, as it is told with one.
#[tactic(auto, unfolding(crate::specs::EvidenceLines::told_line))]
fn told_line(alloc: Global, line: &[u8]) -> Result<Option<Bytes>, Memory>
    ensures { IfOk result (λ told. told ≡ told_line line.now) }
{
    let words = words_in(alloc, line)?;
    told_by(alloc, line, words.as_slice())
}

// By the words of a line.
fn told_by(alloc: Global, line: &[u8], words: &[&[u8]]) -> Result<Option<Bytes>, Memory>
    ensures { IfOk result (λ told. told ≡ told_by line.now (map (λ word. word.now) words.now)) }
{
    match words {
        [] => Ok(None),
        [word, words @ ..] => told_as(alloc, line, words, form_of(word)),
    }
}

fn words_in(alloc: Global, line: &[u8]) -> Result<Vec<&[u8]>, Memory>
    ensures { IfOk result (λ words. map (λ word. word.now) words.items ≡ slice_split (λ b. b == 32) line.entry.now) }
{
    let mut words = Vec::new(alloc);
    for word in line.split(|byte| *byte == b' ') {
        words.push(word)?;
    }
    Ok(words)
}

fn told_as(
    alloc: Global,
    line: &[u8],
    words: &[&[u8]],
    form: Option<Form>,
) -> Result<Option<Bytes>, Memory>
    ensures { IfOk result (λ told. told ≡ told_as line.now (map (λ word. word.now) words.now) form) }
{
    match form {
        None => Ok(None),
        Some(Form::Batch) => told_batch(alloc, words),
        Some(form) => {
            if has_form(form, words) {
                Ok(Some(ended_line(alloc, line)?))
            } else {
                Ok(None)
            }
        }
    }
}

fn ended_line(alloc: Global, line: &[u8]) -> Result<Bytes, Memory>
    ensures { IfOk result (λ text. text ≡ line.now ++ codes "\n") }
{
    let mut text = Bytes::copied(alloc, line)?;
    text.append(b"\n")?;
    Ok(text)
}

// The operations of a batch, if the words write one that has a reading.
fn told_batch(alloc: Global, words: &[&[u8]]) -> Result<Option<Bytes>, Memory>
    ensures { IfOk result (λ told. told ≡ told_batch (elements_of (map (λ word. word.now) words.now))) }
{
    let Some(elements) = elements_in(alloc, words)? else {
        return Ok(None);
    };
    let Some(batch) = batch_of(elements.as_slice()) else {
        return Ok(None);
    };
    match unpack(alloc, &batch)? {
        Some(items) => Ok(Some(items_line(alloc, items.as_slice())?)),
        None => Ok(None),
    }
}

fn elements_in(alloc: Global, words: &[&[u8]]) -> Result<Option<Felts>, Memory>
    ensures { IfOk result (λ elements. elements ≡ elements_of (map (λ word. word.now) words.now)) }
{
    let mut elements = Felts::new(alloc);
    for word in words {
        let Some(element) = Felt::read_decimal(word) else {
            return Ok(None);
        };
        elements.push(element)?;
    }
    Ok(Some(elements))
}

fn batch_of(elements: &[Felt]) -> Option<[Felt; 8]>
    ensures { result ≡ (if length elements.now == 8 then Some elements.now else None) }
{
    match elements {
        [a, b, c, d, e, f, g, h] => Some([*a, *b, *c, *d, *e, *f, *g, *h]),
        _ => None,
    }
}

fn items_line(alloc: Global, items: &[Item]) -> Result<Bytes, Memory>
    ensures { IfOk result (λ text. text ≡ items_line items.now) }
{
    let mut text = Bytes::copied(alloc, b"batch")?;
    append_items(&mut text, items)?;
    text.append(b"\n")?;
    Ok(text)
}

fn append_items(text: &mut Bytes, items: &[Item]) -> Result<(), Memory>
    ensures { OnOk result (text.new ≡ text.old ++ flat_map item_text items.now) }
{
    for item in items {
        append_item(text, item)?;
    }
    Ok(())
}

// An operation, and a PUSH with its immediate.
fn append_item(text: &mut Bytes, item: &Item) -> Result<(), Memory>
    ensures { OnOk result (text.new ≡ text.old ++ item_text item.now) }
{
    text.append(b" ")?;
    text.append(vm_ops::text(item.op).as_bytes())?;
    match item.imm {
        Some(value) => append_element(text, value),
        None => Ok(()),
    }
}
