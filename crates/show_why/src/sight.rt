//! What is seen at a place of a source.
ghost use Rattle.std.specs.Prelude.{◌≡◌, ◌≤◌, [], drop, length, map, option_map, unwrap_or, IfOk, Ok};
ghost use Rattle.masm_lex.specs.Tokens.{text_of};
ghost use Rattle.masm_reading.specs.Reading.{parts_of};
ghost use Rattle.show_why.specs.Neighbours.{scene_of};
ghost use Rattle.show_why.specs.Scenes.{nothing_before};
ghost use Rattle.show_why.specs.Sights.{sight_at, sight_in, sight_with};
ghost use Rattle.show_why.specs.Views.{IsSight, scene_view};

use crate::neighbours::{scene_of, token_behind};
use crate::scene::{Scene, scene_at, spelled};
use masm_lex::{LexError, MAX_SOURCE, Token, lex};
use masm_reading::split;
use masm_tree::Header;
use std::alloc::Global;
use vm_field::Memory;

// The token at a place by its parts, the scene before it, and the rest of the source.
#[derive(Drop)]
pub(crate) struct Sight<'a> {
    pub scene: Scene,
    // none behind all tokens
    pub token: Option<&'a [u8]>,
    // the token behind it
    pub next: Option<&'a [u8]>,
    // those of the whole source, and `begin`
    pub procedures: Vec<Header>,
    pub parts: Vec<&'a [u8]>,
}

// The parts behind the first one.
pub(crate) fn later_parts<'p, 'a>(parts: &'p [&'a [u8]]) -> &'p [&'a [u8]]
    ensures { map (λ part. part.now) result.now ≡ drop 1 (map (λ part. part.now) parts.entry.now) }
{
    match parts {
        [] => parts,
        [_, later @ ..] => later,
    }
}

fn token_text(source: &[u8], token: Option<Token>) -> Option<&[u8]>
    ensures { option_map (λ text. text.now) result ≡ option_map (text_of source.entry.now) token }
{
    match token {
        Some(token) => Some(spelled(source, &token)),
        None => None,
    }
}

fn parts_in(alloc: Global, token: Option<&[u8]>) -> Result<Vec<&[u8]>, Memory>
    ensures { IfOk result (λ parts. map (λ part. part.now) parts.items
        ≡ parts_of (unwrap_or (option_map (λ text. text.now) token.entry) [])) }
{
    let parts = match token {
        Some(text) => split(alloc, text, b'.')?,
        None => split(alloc, b"", b'.')?,
    };
    Ok(parts)
}

// The text of a token, and nothing where there is none.
pub(crate) fn text_or_nothing(token: Option<&[u8]>) -> &[u8]
    ensures { result.now ≡ unwrap_or (option_map (λ text. text.now) token.entry) [] }
{
    match token {
        Some(text) => text,
        None => b"",
    }
}

// A scene, the token behind it and the next one, and the procedures of the source.
fn sight_of(
    alloc: Global,
    source: &[u8],
    scene: Scene,
    token: Option<Token>,
    next: Option<Token>,
    procedures: Vec<Header>,
) -> Result<Sight<'_>, Memory>
    ensures { IfOk result (λ held. IsSight held (sight_with source.entry.now (scene_view scene, token) next procedures.items)) }
{
    let token = token_text(source, token);
    let next = token_text(source, next);
    let parts = parts_in(alloc, token)?;
    Ok(Sight {
        scene,
        token,
        next,
        procedures,
        parts,
    })
}

// The procedures of a source, and `begin`.
fn procedures_of(
    alloc: Global,
    is_kernel: bool,
    source: &[u8],
    tokens: &[Token],
) -> Result<Vec<Header>, Memory>
    ensures { IfOk result (λ procedures. procedures.items ≡ (scene_of is_kernel source.now nothing_before tokens.now).headers) }
{
    let scene = scene_of(alloc, is_kernel, source, tokens)?;
    Ok(scene.headers)
}

// What is seen among these tokens of a source.
fn sight_among<'a>(
    alloc: Global,
    is_kernel: bool,
    source: &'a [u8],
    line: u32,
    column: u32,
    tokens: &[Token],
) -> Result<Sight<'a>, Memory>
    ensures { IfOk result (λ held. IsSight held (sight_in is_kernel source.entry.now line column (Ok tokens.entry.now))) }
{
    let (scene, token) = scene_at(alloc, is_kernel, source, line, column, tokens)?;
    let next = token_behind(tokens, line, column);
    let procedures = procedures_of(alloc, is_kernel, source, tokens)?;
    sight_of(alloc, source, scene, token, next, procedures)
}

#[tactic(auto, unfolding(crate::specs::Sights::sight_at))]
pub(crate) fn sight_at(
    alloc: Global,
    is_kernel: bool,
    source: &[u8],
    line: u32,
    column: u32,
) -> Result<Sight<'_>, Memory>
    requires { length source.now ≤ MAX_SOURCE }
    ensures { IfOk result (λ held. IsSight held (sight_at is_kernel source.entry.now line column)) }
{
    match lex(alloc, source) {
        Ok(tokens) => sight_among(alloc, is_kernel, source, line, column, tokens.as_slice()),
        Err(LexError::Bad { .. }) => {
            sight_of(
                alloc,
                source,
                Scene::new(alloc),
                None,
                None,
                Vec::new(alloc),
            )
        }
        Err(LexError::Memory) => Err(Memory::Memory),
    }
}
