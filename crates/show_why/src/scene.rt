//! What the tokens before a place of a source define, and what they leave open.
ghost use Rattle.std.specs.Prelude.{◌≡◌, ◌++◌, ◌∷◌, [], option_map, IfOk, OnOk};
ghost use Rattle.masm_lex.specs.Tokens.{text_of};
ghost use Rattle.show_why.specs.Scenes.{but_last, innermost, last_header, nothing_before, read_at, scene_behind, scene_from, stands_at};
ghost use Rattle.show_why.specs.Views.{scene_view};

use masm_lex::Token;
use masm_reading::Consts;
use masm_tree::{Header, Position, Symbol, Terminal, classify};
use std::alloc::Global;
use vm_field::Memory;

// What stands before a place.
#[derive(Drop)]
pub(crate) struct Scene {
    pub consts: Consts,
    // the count of locals of the procedure that began last
    pub locals: u32,
    // the procedures, and `begin`
    pub headers: Vec<Header>,
    // the tokens whose bodies are open, the innermost last
    pub opens: Vec<Token>,
}

// The text of a token.
pub(crate) fn spelled<'a>(source: &'a [u8], token: &Token) -> &'a [u8]
    ensures { result.now ≡ text_of source.entry.now token.now }
{
    let end = token.end.min(source.len());
    &source[token.start.min(end)..end]
}

pub(crate) fn stands_at(token: &Token, line: u32, column: u32) -> bool
    ensures { result ≡ stands_at line column token.now }
{
    token.line == line && token.column == column
}

impl Scene {
    pub(crate) fn new(alloc: Global) -> Scene
        ensures { scene_view result ≡ nothing_before }
    {
        Scene {
            consts: Consts::new(alloc),
            locals: 0,
            headers: Vec::new(alloc),
            opens: Vec::new(alloc),
        }
    }

    // How a token is read behind this scene. Its parts are put into the list, in place of what it holds.
    pub(crate) fn read<'a>(
        &self,
        alloc: Global,
        is_kernel: bool,
        source: &'a [u8],
        token: &Token,
        parts: &mut Vec<&'a [u8]>,
    ) -> Result<Symbol, Memory>
        ensures { IfOk result (λ symbol. symbol ≡ read_at is_kernel source.entry.now (scene_view self.now) token.now) }
    {
        let at = Position {
            line: token.line,
            column: token.column,
        };
        let text = spelled(source, token);
        let symbol = classify(alloc, is_kernel, &self.consts, self.locals, at, text, parts)?;
        Ok(symbol)
    }

    fn open(&mut self, token: Token) -> Result<(), Memory>
        ensures opens { OnOk result (self.new.opens.items ≡ self.old.opens.items ++ token ∷ []) }
        ensures consts { self.new.consts ≡ self.old.consts }
        ensures locals { self.new.locals ≡ self.old.locals }
        ensures headers { self.new.headers ≡ self.old.headers }
    {
        self.opens.push(token)?;
        Ok(())
    }

    fn close(&mut self)
        ensures opens { self.new.opens.items ≡ but_last self.old.opens.items }
        ensures consts { self.new.consts ≡ self.old.consts }
        ensures locals { self.new.locals ≡ self.old.locals }
        ensures headers { self.new.headers ≡ self.old.headers }
    {
        let _ = self.opens.pop();
    }

    // Goes behind a token.
    pub(crate) fn pass(&mut self, token: Token, terminal: Terminal) -> Result<(), Memory>
        ensures { OnOk result (scene_view self.new ≡ scene_behind (scene_view self.old) token terminal) }
    {
        match terminal {
            Terminal::Const(constant) => self.consts.push(constant),
            Terminal::Header(header) => {
                self.locals = header.locals;
                self.headers.push(header)?;
                self.open(token)
            }
            Terminal::Leaf(_, _) => Ok(()),
            Terminal::If(_) | Terminal::While(_) | Terminal::Repeat(_, _) => self.open(token),
            Terminal::Else => {
                self.close();
                self.open(token)
            }
            Terminal::End => {
                self.close();
                Ok(())
            }
        }
    }

    // The token whose body is the innermost one that is open.
    pub(crate) fn innermost(&self) -> Option<Token>
        ensures { result ≡ innermost (scene_view self.now) }
    {
        self.opens.last().copied()
    }

    // The header of the procedure that began last.
    pub(crate) fn last_header(&self) -> Option<&Header>
        ensures { option_map (λ header. header.now) result ≡ last_header (scene_view self.now) }
    {
        self.headers.last()
    }
}

// The scene before the token of a place, and that token; behind all tokens where no token has the place.
pub(crate) fn scene_at(
    alloc: Global,
    is_kernel: bool,
    source: &[u8],
    line: u32,
    column: u32,
    tokens: &[Token],
) -> Result<(Scene, Option<Token>), Memory>
    ensures { IfOk result (λ seen. (scene_view seen.0, seen.1) ≡ scene_from is_kernel source.now line column nothing_before tokens.now) }
{
    let mut scene = Scene::new(alloc);
    let mut parts = Vec::new(alloc);
    for token in tokens {
        if stands_at(token, line, column) {
            return Ok((scene, Some(*token)));
        }
        let symbol = scene.read(alloc, is_kernel, source, token, &mut parts)?;
        scene.pass(*token, symbol.terminal)?;
    }
    Ok((scene, None))
}
