//! Tokens by themselves, wherever they stand.
ghost use Rattle.std.specs.Prelude.{◌≡◌, map, option_map, IfOk};
ghost use Rattle.show_why.specs.Alone.{is_malformed, joined_token, lacks_name};
ghost use Rattle.show_why.specs.Views.{scene_view};

use crate::scene::Scene;
use crate::sight::text_or_nothing;
use masm_tree::{Cause, Position, classify};
use show_tokens::is_procedure;
use std::alloc::Global;
use vm_field::{Bytes, Memory};

// Whether a token by itself is of a wrong form, wherever it stands.
pub(crate) fn is_malformed(
    alloc: Global,
    is_kernel: bool,
    scene: &Scene,
    token: &[u8],
) -> Result<bool, Memory>
    ensures { IfOk result (λ is. is ≡ is_malformed is_kernel (scene_view scene.now) token.now) }
{
    let nowhere = Position { line: 0, column: 0 };
    let mut parts = Vec::new(alloc);
    let symbol = classify(
        alloc,
        is_kernel,
        &scene.consts,
        scene.locals,
        nowhere,
        token,
        &mut parts,
    )?;
    Ok(symbol.fault == Some(Cause::Syntax))
}

// A token and the next one as one.
fn joined_token(alloc: Global, first: &[u8], next: &[u8]) -> Result<Bytes, Memory>
    ensures { IfOk result (λ token. token ≡ joined_token first.now next.now) }
{
    let mut token = Bytes::copied(alloc, first)?;
    token.append(b".")?;
    token.append(next)?;
    Ok(token)
}

// Whether a token begins a procedure without its name, which stands behind it.
pub(crate) fn lacks_name(
    alloc: Global,
    is_kernel: bool,
    scene: &Scene,
    first: &[u8],
    more: &[&[u8]],
    next: Option<&[u8]>,
) -> Result<bool, Memory>
    ensures { IfOk result (λ is. is ≡ lacks_name is_kernel (scene_view scene.now) first.now (map (λ part. part.now) more.now)
        (option_map (λ text. text.now) next.entry)) }
{
    let token = joined_token(alloc, first, text_or_nothing(next))?;
    let is_malformed = is_malformed(alloc, is_kernel, scene, token.as_slice())?;
    Ok(is_procedure(first) && more.is_empty() && !is_malformed)
}
