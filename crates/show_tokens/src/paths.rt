//! Names with a path before them, as `u64::wrapping_add`.
ghost use Rattle.std.specs.Prelude.{◌≡◌, ◌++◌, map, IfOk, OnOk};
ghost use Rattle.masm_link.specs.Libraries.{has_name};
ghost use Rattle.std_u64.specs.Libraries.{u64_library};
ghost use Rattle.show_tokens.specs.Forms.{parameter};
ghost use Rattle.show_tokens.specs.Paths.{alone_line, definer, either_line, has_header, has_path, is_missing, is_of_library, is_path, is_procedure_of, joined_name, last_line, missing_line, names_one, names_procedure, path_line, piece_before, pieces_of, reaches_library};

use crate::forms::{first_part, is_use};
use crate::words::{append_both, append_sentence, word};
use masm_reading::split;
use masm_tree::Header;
use std::alloc::Global;
use std_u64::by_name;
use vm_field::{Bytes, Memory};

// The piece so many places before their end.
fn piece_before<'a>(pieces: &[&'a [u8]], count: usize) -> &'a [u8]
    ensures { result.now ≡ piece_before count (map (λ piece. piece.now) pieces.entry.now) }
{
    match pieces.get(pieces.len().saturating_sub(count)) {
        Some(piece) => piece,
        None => b"",
    }
}

fn is_path(pieces: &[&[u8]]) -> bool
    ensures { result ≡ is_path (map (λ piece. piece.now) pieces.now) }
{
    pieces.len() >= 3 && piece_before(pieces, 2).is_empty() && !piece_before(pieces, 1).is_empty()
}

fn is_path_part(alloc: Global, part: &[u8]) -> Result<bool, Memory>
    ensures { IfOk result (λ is. is ≡ is_path (pieces_of part.now)) }
{
    let pieces = split(alloc, part, b':')?;
    Ok(is_path(pieces.as_slice()))
}

// Whether a token names one procedure.
fn names_one(first: &[u8], more: &[&[u8]]) -> bool
    ensures { result ≡ names_one first.now (map (λ part. part.now) more.now) }
{
    is_use(first) && more.len() == 1
}

// Whether it names it with a path.
pub(crate) fn has_path(alloc: Global, first: &[u8], more: &[&[u8]]) -> Result<bool, Memory>
    ensures { IfOk result (λ has. has ≡ has_path first.now (map (λ part. part.now) more.now)) }
{
    let is_path = is_path_part(alloc, first_part(more))?;
    Ok(names_one(first, more) && is_path)
}

// The last two names of a path as one.
fn joined_name(alloc: Global, pieces: &[&[u8]]) -> Result<Bytes, Memory>
    ensures { IfOk result (λ name. name ≡ joined_name (map (λ piece. piece.now) pieces.now)) }
{
    let mut name = Bytes::copied(alloc, piece_before(pieces, 3))?;
    name.append(b"_")?;
    name.append(piece_before(pieces, 1))?;
    Ok(name)
}

fn has_name(name: &[u8]) -> bool
    ensures { result ≡ has_name u64_library name.now }
{
    by_name(name).is_some()
}

fn has_header(procedures: &[Header], name: &[u8]) -> bool
    ensures { result ≡ has_header procedures.now name.now }
{
    for header in procedures {
        if header.name.as_slice() == name {
            return true;
        }
    }
    false
}

// Whether one of these procedures has the name.
fn is_procedure_of(procedures: &[Header], name: &[u8]) -> bool
    ensures { result ≡ is_procedure_of procedures.now name.now }
{
    !name.is_empty() && has_header(procedures, name)
}

// Whether a source may use a procedure of the library by this name.
pub(crate) fn is_of_library(is_kernel: bool, name: &[u8]) -> bool
    ensures { result ≡ is_of_library is_kernel name.now }
{
    !is_kernel && has_name(name)
}

// Whether the name is that of a procedure, of the source or of the library.
pub(crate) fn names_procedure(is_kernel: bool, procedures: &[Header], name: &[u8]) -> bool
    ensures { result ≡ names_procedure is_kernel procedures.now name.now }
{
    is_procedure_of(procedures, name) || is_of_library(is_kernel, name)
}

// Whether a token of this first part may.
fn reaches_library(is_kernel: bool, first: &[u8], name: &[u8]) -> bool
    ensures { result ≡ reaches_library is_kernel first.now name.now }
{
    first != b"syscall".as_slice() && is_of_library(is_kernel, name)
}

fn append_alone(text: &mut Bytes, what: &[u8], first: &[u8], name: &[u8]) -> Result<(), Memory>
    ensures { OnOk result (text.new ≡ text.old ++ alone_line what.now first.now name.now) }
{
    let before = b"names have no path here: ";
    let between = b" named alone, as ";
    append_sentence(
        text,
        &[before, what, between, word(first), b".", word(name)],
    )
}

// Whether no procedure has the name that a token of this first part uses.
fn is_missing(is_kernel: bool, procedures: &[Header], first: &[u8], name: &[u8]) -> bool
    ensures { result ≡ is_missing is_kernel procedures.now first.now name.now }
{
    first != b"syscall".as_slice() && !names_procedure(is_kernel, procedures, name)
}

fn definer(is_kernel: bool) -> &'static str
    ensures { result.now ≡ definer is_kernel }
{
    if is_kernel {
        "names have no path here, and this kernel defines no procedure "
    } else {
        "names have no path here, and neither this source nor the library defines a procedure "
    }
}

fn append_missing(text: &mut Bytes, is_kernel: bool, name: &[u8]) -> Result<(), Memory>
    ensures { OnOk result (text.new ≡ text.old ++ missing_line is_kernel name.now) }
{
    append_both(text, definer(is_kernel).as_bytes(), word(name))
}

// Adds what is told of a path by its last name.
fn append_last(
    text: &mut Bytes,
    is_kernel: bool,
    procedures: &[Header],
    first: &[u8],
    last: &[u8],
) -> Result<(), Memory>
    ensures { OnOk result (text.new ≡ text.old ++ last_line is_kernel procedures.now first.now last.now) }
{
    if is_missing(is_kernel, procedures, first, last) {
        append_missing(text, is_kernel, last)
    } else {
        append_alone(text, b"a procedure is", first, last)
    }
}

// Adds the library's procedure of the joined name, where the token reaches it, or what is told of the last name.
fn append_either(
    text: &mut Bytes,
    is_kernel: bool,
    procedures: &[Header],
    first: &[u8],
    joined: &[u8],
    last: &[u8],
) -> Result<(), Memory>
    ensures { OnOk result (text.new ≡ text.old ++ either_line is_kernel procedures.now first.now joined.now last.now) }
{
    if reaches_library(is_kernel, first, joined) {
        append_alone(text, b"the library's procedures are", first, joined)
    } else {
        append_last(text, is_kernel, procedures, first, last)
    }
}

fn append_pieces(
    alloc: Global,
    text: &mut Bytes,
    is_kernel: bool,
    procedures: &[Header],
    first: &[u8],
    pieces: &[&[u8]],
) -> Result<(), Memory>
    ensures { OnOk result (text.new ≡ text.old ++ path_line is_kernel procedures.now first.now (map (λ piece. piece.now) pieces.now)) }
{
    let joined = joined_name(alloc, pieces)?;
    append_either(
        text,
        is_kernel,
        procedures,
        first,
        joined.as_slice(),
        piece_before(pieces, 1),
    )
}

pub(crate) fn append_path(
    alloc: Global,
    text: &mut Bytes,
    is_kernel: bool,
    procedures: &[Header],
    first: &[u8],
    more: &[&[u8]],
) -> Result<(), Memory>
    ensures { OnOk result (text.new ≡ text.old ++ path_line is_kernel procedures.now first.now (pieces_of (parameter (map (λ part. part.now) more.now)))) }
{
    let pieces = split(alloc, first_part(more), b':')?;
    append_pieces(alloc, text, is_kernel, procedures, first, pieces.as_slice())
}
