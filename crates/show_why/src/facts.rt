//! The sentence of a refusal, by its cause.
ghost use Rattle.std.specs.Prelude.{◌≡◌, ◌≤◌, ◌++◌, length, OnOk};
ghost use Rattle.show_why.specs.Facts.{fact_line};
ghost use Rattle.show_why.specs.Sights.{Sight as Seen, sight_at};
ghost use Rattle.show_why.specs.Views.{IsSight};

use crate::lines::byte_at;
use crate::sentences::{
    append_back, append_byte, append_deep, append_duplicate, append_exports, append_kept,
    append_locals, append_not_exported, append_operations, append_unknown,
};
use crate::sight::{Sight, later_parts, sight_at};
use crate::syntax::append_syntax;
use crate::unnamed::append_unnamed;
use masm_lex::MAX_SOURCE;
use masm_link::AsmCause;
use show_tokens::{append_number_line, append_unsupported, first_part};
use std::alloc::Global;
use vm_field::{Bytes, Memory};

// Where a refusal stands.
#[derive(Clone, Copy)]
pub(crate) struct Place {
    // Whether the source is a kernel.
    pub in_kernel: bool,
    // Whether a kernel is given.
    pub with_kernel: bool,
    // The line, counted from 1.
    pub line: u32,
    // The column, counted in bytes from 1.
    pub column: u32,
}

fn append_seen(
    alloc: Global,
    text: &mut Bytes,
    source: &[u8],
    place: Place,
    sight: &Sight<'_>,
    cause: AsmCause,
) -> Result<(), Memory>
    ensures { OnOk result ((seen : Seen) → IsSight sight.now seen
        → text.new ≡ text.old ++ fact_line place.in_kernel place.with_kernel source.now place.line place.column seen cause) }
{
    let scene = &sight.scene;
    let first = first_part(sight.parts.as_slice());
    let more = later_parts(sight.parts.as_slice());
    match cause {
        AsmCause::Lexical => {
            append_byte(text, byte_at(alloc, source, place.line, place.column)?)
        }
        AsmCause::KernelBody => append_kept(text, first),
        AsmCause::Unsupported => append_unsupported(text, place.in_kernel, first),
        AsmCause::UnknownInstruction => append_unnamed(alloc, text, place.in_kernel, sight),
        AsmCause::Syntax => append_syntax(alloc, text, place.in_kernel, source, sight),
        AsmCause::NumberRange | AsmCause::RepeatRange => {
            append_number_line(text, &scene.consts, first, more)
        }
        AsmCause::LocalsRange => append_locals(text, first, more, scene),
        AsmCause::TooDeep => append_deep(text, first),
        AsmCause::Duplicate => append_duplicate(alloc, text, first, more, scene),
        AsmCause::TooManyExports => append_exports(text),
        AsmCause::UnknownProcedure => append_unknown(text, place.in_kernel, first_part(more)),
        AsmCause::NotInKernel => append_not_exported(text, place.with_kernel, first_part(more)),
        AsmCause::Recursive => append_back(text, first, more, scene.last_header()),
        AsmCause::TooManyOps => append_operations(text),
    }
}

// Adds the sentence of a refusal at a place of a source: the facts that its cause speaks of.
pub(crate) fn append_fact(
    alloc: Global,
    text: &mut Bytes,
    source: &[u8],
    place: Place,
    cause: AsmCause,
) -> Result<(), Memory>
    requires { length source.now ≤ MAX_SOURCE }
    ensures { OnOk result (text.new ≡ text.old
        ++ fact_line place.in_kernel place.with_kernel source.now place.line place.column
        (sight_at place.in_kernel source.now place.line place.column) cause) }
{
    let sight = sight_at(alloc, place.in_kernel, source, place.line, place.column)?;
    append_seen(alloc, text, source, place, &sight, cause)
}
