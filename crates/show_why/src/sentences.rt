//! Sentences on one refused token: its name, its local, the procedure in which it stands.
ghost use Rattle.std.specs.Prelude.{◌≡◌, ◌++◌, map, option_map, OnOk};
ghost use Rattle.show_why.specs.Sentences.{back_line, byte_line, deep_line, deep_text, defined_line, duplicate_line, exporter, exports_line, first_line, is_header, kept_line, local_line, locals_line, not_exported_line, operations_line, unknown_line};
ghost use Rattle.show_why.specs.Views.{scene_view};

use crate::defined::{constant_name, constant_place, procedure_place};
use crate::scene::Scene;
use itoa::Buffer;
use masm_tree::{Header, Position};
use show_tokens::{append_both, append_sentence, first_part, is_procedure, word};
use std::alloc::Global;
use vm_field::{Bytes, Memory};

pub(crate) fn append_byte(text: &mut Bytes, byte: u8) -> Result<(), Memory>
    ensures { OnOk result (text.new ≡ text.old ++ byte_line byte) }
{
    let mut buffer = Buffer::new();
    let byte = buffer.format(byte).as_bytes();
    let behind = b" is neither a blank nor one of a token, which are 33 to 126";
    append_sentence(text, &[b"the byte ", byte, behind])
}

pub(crate) fn append_kept(text: &mut Bytes, first: &[u8]) -> Result<(), Memory>
    ensures { OnOk result (text.new ≡ text.old ++ kept_line first.now) }
{
    append_sentence(text, &[b"a kernel has no ", word(first)])
}

pub(crate) fn append_exports(text: &mut Bytes) -> Result<(), Memory>
    ensures { OnOk result (text.new ≡ text.old ++ exports_line) }
{
    append_sentence(text, &[b"a kernel exports at most 255 procedures"])
}

pub(crate) fn append_operations(text: &mut Bytes) -> Result<(), Memory>
    ensures { OnOk result (text.new ≡ text.old ++ operations_line) }
{
    append_sentence(text, &[b"its tree has more than 524288 operations"])
}

fn append_local(
    text: &mut Bytes,
    part: &[u8],
    locals: u32,
    header: Option<&Header>,
) -> Result<(), Memory>
    ensures { OnOk result (text.new ≡ text.old ++ local_line part.now locals (option_map (λ header. header.now) header.entry)) }
{
    let Some(header) = header else {
        return Ok(());
    };
    let mut buffer = Buffer::new();
    let locals = buffer.format(locals).as_bytes();
    let name = word(header.name.as_slice());
    append_sentence(
        text,
        &[
            word(part),
            b" is no local of ",
            name,
            b", which has ",
            locals,
        ],
    )
}

pub(crate) fn append_locals(
    text: &mut Bytes,
    first: &[u8],
    more: &[&[u8]],
    scene: &Scene,
) -> Result<(), Memory>
    ensures { OnOk result (text.new ≡ text.old ++ locals_line first.now (map (λ part. part.now) more.now) (scene_view scene.now)) }
{
    if is_procedure(first) {
        return append_sentence(text, &[b"a procedure has at most 65535 locals"]);
    }
    append_local(text, first_part(more), scene.locals, scene.last_header())
}

// Whether a token begins a procedure, or the body of the program.
fn is_header(first: &[u8]) -> bool
    ensures { result ≡ is_header first.now }
{
    is_procedure(first) || first == b"begin".as_slice()
}

fn deep_text(is_header: bool) -> &'static str
    ensures { result.now ≡ deep_text is_header }
{
    if is_header {
        "its tree has more than 1024 blocks on one path"
    } else {
        "256 blocks are open here already"
    }
}

pub(crate) fn append_deep(text: &mut Bytes, first: &[u8]) -> Result<(), Memory>
    ensures { OnOk result (text.new ≡ text.old ++ deep_line first.now) }
{
    let told = deep_text(is_header(first)).as_bytes();
    append_sentence(text, &[told])
}

fn append_defined(text: &mut Bytes, name: &[u8], at: Position) -> Result<(), Memory>
    ensures { OnOk result (text.new ≡ text.old ++ defined_line name.now at) }
{
    let (mut line, mut column) = (Buffer::new(), Buffer::new());
    let line = line.format(at.line).as_bytes();
    let column = column.format(at.column).as_bytes();
    append_sentence(
        text,
        &[word(name), b" is defined already, at ", line, b":", column],
    )
}

fn append_first(text: &mut Bytes, name: &[u8], at: Option<Position>) -> Result<(), Memory>
    ensures { OnOk result (text.new ≡ text.old ++ first_line name.now at) }
{
    match at {
        Some(at) => append_defined(text, name, at),
        None => Ok(()),
    }
}

pub(crate) fn append_duplicate(
    alloc: Global,
    text: &mut Bytes,
    first: &[u8],
    more: &[&[u8]],
    scene: &Scene,
) -> Result<(), Memory>
    ensures { OnOk result (text.new ≡ text.old ++ duplicate_line first.now (map (λ part. part.now) more.now) (scene_view scene.now)) }
{
    let name = first_part(more);
    if first == b"const".as_slice() {
        let name = constant_name(alloc, name)?;
        return append_first(text, name, constant_place(scene.consts.as_slice(), name));
    }
    append_first(text, name, procedure_place(scene.headers.as_slice(), name))
}

pub(crate) fn append_unknown(text: &mut Bytes, is_kernel: bool, name: &[u8]) -> Result<(), Memory>
    ensures { OnOk result (text.new ≡ text.old ++ unknown_line is_kernel name.now) }
{
    let name = word(name);
    if is_kernel {
        append_sentence(text, &[b"this kernel defines no procedure ", name])
    } else {
        append_sentence(
            text,
            &[
                b"neither this source nor the library defines a procedure ",
                name,
            ],
        )
    }
}

fn exporter(is_given: bool) -> &'static str
    ensures { result.now ≡ exporter is_given }
{
    if is_given {
        "the kernel exports no procedure "
    } else {
        "no kernel is given that exports a procedure "
    }
}

pub(crate) fn append_not_exported(
    text: &mut Bytes,
    is_given: bool,
    name: &[u8],
) -> Result<(), Memory>
    ensures { OnOk result (text.new ≡ text.old ++ not_exported_line is_given name.now) }
{
    append_both(text, exporter(is_given).as_bytes(), word(name))
}

pub(crate) fn append_back(
    text: &mut Bytes,
    first: &[u8],
    more: &[&[u8]],
    header: Option<&Header>,
) -> Result<(), Memory>
    ensures { OnOk result (text.new ≡ text.old ++ back_line first.now (map (λ part. part.now) more.now) (option_map (λ header. header.now) header.entry)) }
{
    let Some(header) = header else {
        return Ok(());
    };
    let name = word(header.name.as_slice());
    if first == b"dynexec".as_slice() {
        let before = b"a procedure that a procref names reaches ";
        append_sentence(text, &[before, name, b", in which this dynexec stands"])
    } else {
        let used = word(first_part(more));
        append_sentence(text, &[used, b" reaches ", name, b", in which it is used"])
    }
}
