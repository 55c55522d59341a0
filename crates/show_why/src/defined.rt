//! Where names were defined first.
ghost use Rattle.std.specs.Prelude.{◌≡◌, IfOk};
ghost use Rattle.show_why.specs.Sentences.{constant_name, constant_place, procedure_place};

use masm_reading::{Const, split};
use masm_tree::{Header, Position};
use show_tokens::first_part;
use std::alloc::Global;
use vm_field::Memory;

pub(crate) fn constant_place(consts: &[Const], name: &[u8]) -> Option<Position>
    ensures { result ≡ constant_place consts.now name.now }
{
    for constant in consts {
        if constant.name.as_slice() == name {
            return Some(Position {
                line: constant.line,
                column: constant.column,
            });
        }
    }
    None
}

pub(crate) fn procedure_place(headers: &[Header], name: &[u8]) -> Option<Position>
    ensures { result ≡ procedure_place headers.now name.now }
{
    for header in headers {
        if header.name.as_slice() == name {
            return Some(header.at);
        }
    }
    None
}

// The name in `NAME=v`.
pub(crate) fn constant_name(alloc: Global, part: &[u8]) -> Result<&[u8], Memory>
    ensures { IfOk result (λ name. name.now ≡ constant_name part.entry.now) }
{
    let sides = split(alloc, part, b'=')?;
    Ok(first_part(sides.as_slice()))
}
