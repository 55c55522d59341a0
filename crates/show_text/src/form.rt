//! The lines of evidence by their first words.
ghost use Rattle.std.specs.Prelude.{◌≡◌, map};
ghost use Rattle.std.specs.List.{list_all};
ghost use Rattle.show_text.specs.EvidenceLines.{are_places, block_form, form_of, has_form, head_form, is_clash, is_digest, is_number};

use vm_field::{Felt, Word};

/// What stands behind the first word of a line of evidence.
#[derive(Clone, Copy, Debug, PartialEq, Eq)]
pub enum Form {
    /// So many numbers.
    Numbers(usize),
    /// Any number of elements.
    Tape,
    /// The digest of a block.
    Digest,
    /// Two hashes.
    Clash,
    /// The eight elements of a batch.
    Batch,
}

/// What stands behind this word where a line begins with it; none where no line does.
pub(crate) fn form_of(word: &[u8]) -> Option<Form>
    ensures { result ≡ form_of word.now }
{
    match block_form(word) {
        Some(form) => Some(form),
        None => head_form(word),
    }
}

// A line of a tree.
fn block_form(word: &[u8]) -> Option<Form>
    ensures { result ≡ block_form word.now }
{
    if word == b"batch".as_slice() {
        Some(Form::Batch)
    } else if word == b"span".as_slice() || word == b"dyn".as_slice() {
        Some(Form::Numbers(1))
    } else if word == b"opaque".as_slice() {
        Some(Form::Digest)
    } else if word == b"join".as_slice()
        || word == b"split".as_slice()
        || word == b"loop".as_slice()
    {
        Some(Form::Numbers(0))
    } else if word == b"call".as_slice() || word == b"syscall".as_slice() {
        Some(Form::Numbers(0))
    } else {
        None
    }
}

// Another line.
fn head_form(word: &[u8]) -> Option<Form>
    ensures { result ≡ head_form word.now }
{
    if word == b"run".as_slice() || word == b"ran".as_slice() {
        Some(Form::Numbers(0))
    } else if word == b"cycles".as_slice() || word == b"link".as_slice() {
        Some(Form::Numbers(1))
    } else if word == b"pair".as_slice() {
        Some(Form::Numbers(2))
    } else if word == b"tape".as_slice() {
        Some(Form::Tape)
    } else if word == b"clash".as_slice() {
        Some(Form::Clash)
    } else {
        None
    }
}

/// Whether the words are those of the form. Of a batch more is asked.
pub(crate) fn has_form(form: Form, words: &[&[u8]]) -> bool
    ensures { result ≡ has_form form (map (λ word. word.now) words.now) }
{
    match form {
        Form::Numbers(count) => words.len() == count && are_numbers(words),
        Form::Tape => are_numbers(words),
        Form::Digest => is_digest(words),
        Form::Clash => is_clash(words),
        Form::Batch => false,
    }
}

fn are_numbers(words: &[&[u8]]) -> bool
    ensures { result ≡ list_all is_number (map (λ word. word.now) words.now) }
{
    match words {
        [] => true,
        [word, words @ ..] => is_number(word) && are_numbers(words),
    }
}

fn is_number(word: &[u8]) -> bool
    ensures { result ≡ is_number word.now }
{
    Felt::read_decimal(word).is_some()
}

fn is_digest(words: &[&[u8]]) -> bool
    ensures { result ≡ is_digest (map (λ word. word.now) words.now) }
{
    match words {
        [text] => Word::from_hex(text).is_some(),
        _ => false,
    }
}

fn is_clash(words: &[&[u8]]) -> bool
    ensures { result ≡ is_clash (map (λ word. word.now) words.now) }
{
    match words {
        [file, first, other, second] => are_places(file, first, other, second),
        _ => false,
    }
}

// `file A file B` or `file A node N`
fn are_places(file: &[u8], first: &[u8], other: &[u8], second: &[u8]) -> bool
    ensures { result ≡ are_places file.now first.now other.now second.now }
{
    file == b"file".as_slice()
        && is_number(first)
        && (other == b"file".as_slice() || other == b"node".as_slice())
        && is_number(second)
}
