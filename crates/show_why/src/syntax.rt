//! What is told of a token that does not fit or is of a wrong form, and of a source that ends early.
ghost use Rattle.std.specs.Prelude.{◌≡◌, ◌++◌, map, option_map, OnOk};
ghost use Rattle.show_tokens.specs.Parts.{parts_line};
ghost use Rattle.show_why.specs.Scenes.{innermost};
ghost use Rattle.show_why.specs.Sentences.{early_line, end_line, export_line, has_begun, inside_line, malformed_line, misplaced_line, outside_line, syntax_line};
ghost use Rattle.show_why.specs.Sights.{Sight as Seen, first_of, more_of};
ghost use Rattle.show_why.specs.Views.{IsSight, scene_view};

use crate::alone::{is_malformed, lacks_name};
use crate::scene::{Scene, spelled};
use crate::sight::{Sight, later_parts, text_or_nothing};
use itoa::Buffer;
use masm_lex::Token;
use masm_tree::{Header, Role};
use show_tokens::{
    append_apart, append_name_apart, append_parts, append_sentence, append_separator, first_part,
    has_semicolon, is_apart, word,
};
use std::alloc::Global;
use vm_field::{Bytes, Memory};

fn append_end(text: &mut Bytes, source: &[u8], opened: Option<Token>) -> Result<(), Memory>
    ensures { OnOk result (text.new ≡ text.old ++ end_line source.now opened) }
{
    let Some(token) = opened else {
        return append_sentence(text, &[b"a program has a body between begin and end"]);
    };
    let (mut line, mut column) = (Buffer::new(), Buffer::new());
    let by = word(spelled(source, &token));
    let line = line.format(token.line).as_bytes();
    let column = column.format(token.column).as_bytes();
    append_sentence(
        text,
        &[
            b"the block opened by ",
            by,
            b" at ",
            line,
            b":",
            column,
            b" is not closed",
        ],
    )
}

// Whether `begin` has come.
fn has_begun(header: Option<&Header>) -> bool
    ensures { result ≡ has_begun (option_map (λ header. header.now) header.entry) }
{
    match header {
        Some(header) => header.role == Role::Main,
        None => false,
    }
}

// Adds what is told of the export of a procedure in a program.
fn append_export(text: &mut Bytes, name: &[u8]) -> Result<(), Memory>
    ensures { OnOk result (text.new ≡ text.old ++ export_line name.now) }
{
    let before =
        b"only a kernel has export: a kernel is named behind --kernel, and a program's procedure is proc.";
    append_sentence(text, &[before, word(name)])
}

// Adds what is told of a token that does not fit before `begin`.
fn append_early(text: &mut Bytes, first: &[u8], more: &[&[u8]]) -> Result<(), Memory>
    ensures { OnOk result (text.new ≡ text.old ++ early_line first.now (map (λ part. part.now) more.now)) }
{
    if first == b"export".as_slice() {
        return append_export(text, first_part(more));
    }
    let behind = b" may not stand outside of begin and of procedures";
    append_sentence(text, &[word(first), behind])
}

fn append_outside(text: &mut Bytes, first: &[u8], more: &[&[u8]], begun: bool) -> Result<(), Memory>
    ensures { OnOk result (text.new ≡ text.old ++ outside_line first.now (map (λ part. part.now) more.now) begun) }
{
    if begun {
        append_sentence(text, &[b"nothing may stand behind the end of begin"])
    } else {
        append_early(text, first, more)
    }
}

fn append_inside(text: &mut Bytes, source: &[u8], first: &[u8], token: &Token) -> Result<(), Memory>
    ensures { OnOk result (text.new ≡ text.old ++ inside_line source.now first.now token.now) }
{
    let (mut line, mut column) = (Buffer::new(), Buffer::new());
    let by = word(spelled(source, token));
    let line = line.format(token.line).as_bytes();
    let column = column.format(token.column).as_bytes();
    let between = b" may not stand in the block opened by ";
    append_sentence(
        text,
        &[word(first), between, by, b" at ", line, b":", column],
    )
}

fn append_misplaced(
    text: &mut Bytes,
    source: &[u8],
    first: &[u8],
    more: &[&[u8]],
    scene: &Scene,
) -> Result<(), Memory>
    ensures { OnOk result (text.new ≡ text.old
        ++ misplaced_line source.now first.now (map (λ part. part.now) more.now) (scene_view scene.now) (innermost (scene_view scene.now))) }
{
    match scene.innermost() {
        Some(token) => append_inside(text, source, first, &token),
        None => append_outside(text, first, more, has_begun(scene.last_header())),
    }
}

// Adds what is told of a token in sight by its parts.
fn append_rest(
    alloc: Global,
    text: &mut Bytes,
    is_kernel: bool,
    sight: &Sight<'_>,
) -> Result<(), Memory>
    ensures { OnOk result ((seen : Seen) → IsSight sight.now seen
        → text.new ≡ text.old ++ parts_line is_kernel seen.procedures seen.scene.context.consts (first_of seen) (more_of seen)) }
{
    let first = first_part(sight.parts.as_slice());
    let more = later_parts(sight.parts.as_slice());
    append_parts(
        alloc,
        text,
        is_kernel,
        sight.procedures.as_slice(),
        &sight.scene.consts,
        first,
        more,
    )
}

// Adds what is told of a token of a wrong form.
fn append_malformed(
    alloc: Global,
    text: &mut Bytes,
    is_kernel: bool,
    sight: &Sight<'_>,
    token: &[u8],
) -> Result<(), Memory>
    ensures { OnOk result ((seen : Seen) → IsSight sight.now seen
        → text.new ≡ text.old ++ malformed_line is_kernel seen token.now) }
{
    let first = first_part(sight.parts.as_slice());
    let more = later_parts(sight.parts.as_slice());
    if has_semicolon(token) {
        append_separator(text)
    } else if is_apart(first, more, sight.next) {
        append_apart(text, first, text_or_nothing(sight.next))
    } else if lacks_name(alloc, is_kernel, &sight.scene, first, more, sight.next)? {
        append_name_apart(text, first, text_or_nothing(sight.next))
    } else {
        append_rest(alloc, text, is_kernel, sight)
    }
}

pub(crate) fn append_syntax(
    alloc: Global,
    text: &mut Bytes,
    is_kernel: bool,
    source: &[u8],
    sight: &Sight<'_>,
) -> Result<(), Memory>
    ensures { OnOk result ((seen : Seen) → IsSight sight.now seen
        → text.new ≡ text.old ++ syntax_line is_kernel source.now seen seen.token) }
{
    let scene = &sight.scene;
    let Some(token) = sight.token else {
        return append_end(text, source, scene.innermost());
    };
    if is_malformed(alloc, is_kernel, scene, token)? {
        append_malformed(alloc, text, is_kernel, sight, token)
    } else {
        let first = first_part(sight.parts.as_slice());
        let more = later_parts(sight.parts.as_slice());
        append_misplaced(text, source, first, more, scene)
    }
}
