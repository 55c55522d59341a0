//! What the rest of a source says of one token.
ghost use Rattle.std.specs.Prelude.{◌≡◌, IfOk};
ghost use Rattle.show_why.specs.Neighbours.{scene_of, token_behind};
ghost use Rattle.show_why.specs.Scenes.{nothing_before};
ghost use Rattle.show_why.specs.Views.{scene_view};

use crate::scene::{Scene, stands_at};
use masm_lex::Token;
use std::alloc::Global;
use vm_field::Memory;

// The token behind that of a place.
pub(crate) fn token_behind(tokens: &[Token], line: u32, column: u32) -> Option<Token>
    ensures { result ≡ token_behind line column tokens.now }
{
    let mut is_behind = false;
    for token in tokens {
        if is_behind {
            return Some(*token);
        }
        is_behind = stands_at(token, line, column);
    }
    None
}

// The scene behind all tokens.
pub(crate) fn scene_of(
    alloc: Global,
    is_kernel: bool,
    source: &[u8],
    tokens: &[Token],
) -> Result<Scene, Memory>
    ensures { IfOk result (λ scene. scene_view scene ≡ scene_of is_kernel source.now nothing_before tokens.now) }
{
    let mut scene = Scene::new(alloc);
    let mut parts = Vec::new(alloc);
    for token in tokens {
        let symbol = scene.read(alloc, is_kernel, source, token, &mut parts)?;
        scene.pass(*token, symbol.terminal)?;
    }
    Ok(scene)
}
