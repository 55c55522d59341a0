//! Instructions that have another name in other assemblies, and their names here.
ghost use Rattle.std.specs.Prelude.{◌≡◌, ◌++◌, option_map, IfOk, OnOk};
ghost use Rattle.show_tokens.specs.OtherNames.{checked_name, here_line, is_checked, listed_line, listed_name, no_name_line, other_name_line, other_names, rest_of};

use crate::words::{append_sentence, behind, front, word};
use masm_instr::name_of;
use std::alloc::Global;
use vm_field::{Bytes, Memory};

// What stands behind `u32unchecked_`, and else behind `u32`.
fn rest_of(name: &[u8]) -> &[u8]
    ensures { result.now ≡ rest_of name.entry.now }
{
    if front(name, 13) == b"u32unchecked_".as_slice() {
        behind(name, 13)
    } else {
        behind(name, 3)
    }
}

fn checked_name(alloc: Global, name: &[u8]) -> Result<Bytes, Memory>
    ensures { IfOk result (λ checked. checked ≡ checked_name name.now) }
{
    let mut checked = Bytes::copied(alloc, b"u32checked_")?;
    checked.append(rest_of(name))?;
    Ok(checked)
}

// Whether a name begins with `u32`, and the name with `u32checked_` is that of an instruction.
fn is_checked(name: &[u8], checked: &[u8]) -> bool
    ensures { checked.now ≡ checked_name name.now → result ≡ is_checked name.now }
{
    front(name, 3) == b"u32".as_slice() && name_of(checked).is_some()
}

// The name here of one that is other by itself.
fn listed_name(name: &[u8]) -> Option<&'static [u8]>
    ensures { option_map (λ here. here.now) result ≡ listed_name other_names name.now }
{
    if name == b"u32assert2".as_slice() {
        Some(b"u32assert.2")
    } else if name == b"mem_loadw_be".as_slice() {
        Some(b"mem_loadw")
    } else if name == b"mem_storew_be".as_slice() {
        Some(b"mem_storew")
    } else if name == b"loc_loadw_be".as_slice() {
        Some(b"loc_loadw")
    } else if name == b"loc_storew_be".as_slice() {
        Some(b"loc_storew")
    } else {
        None
    }
}

fn append_no_name(text: &mut Bytes, first: &[u8]) -> Result<(), Memory>
    ensures { OnOk result (text.new ≡ text.old ++ no_name_line first.now) }
{
    append_sentence(text, &[b"there is no instruction ", word(first)])
}

fn append_here(text: &mut Bytes, first: &[u8], here: &[u8]) -> Result<(), Memory>
    ensures { OnOk result (text.new ≡ text.old ++ here_line first.now here.now) }
{
    let before = b"there is no instruction ";
    append_sentence(text, &[before, word(first), b": here it is ", here])
}

fn append_listed(text: &mut Bytes, first: &[u8], here: Option<&[u8]>) -> Result<(), Memory>
    ensures { OnOk result (text.new ≡ text.old ++ listed_line first.now (option_map (λ here. here.now) here.entry)) }
{
    match here {
        Some(here) => append_here(text, first, here),
        None => append_no_name(text, first),
    }
}

// Adds what is told of a name that no instruction has.
pub(crate) fn append_other_name(alloc: Global, text: &mut Bytes, first: &[u8]) -> Result<(), Memory>
    ensures { OnOk result (text.new ≡ text.old ++ other_name_line first.now) }
{
    let checked = checked_name(alloc, first)?;
    if is_checked(first, checked.as_slice()) {
        append_here(text, first, checked.as_slice())
    } else {
        append_listed(text, first, listed_name(first))
    }
}
