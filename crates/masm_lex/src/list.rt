ghost use Rattle.std.specs.Prelude.{◌≡◌, ◌<◌, ◌↔◌, List, [], ◌∷◌, ◌++◌, length, IsTrue, OnOk, OnErr, Ok};
ghost use Rattle.std.specs.List.{HoldsAt};
ghost use Rattle.masm_lex.specs.Tokens.{lexed, text_of, IsPart, TokensAreParts};
ghost use Rattle.masm_lex.specs.Order.{TokensAscend};

use std::alloc::{AllocError, Global};
use std::marker::Model;

/// A token: the bytes of the source from `start` to `end`, without the one at `end`.
#[derive(Clone, Copy, Debug, PartialEq, Eq)]
pub struct Token {
    /// The index of its first byte.
    pub start: usize,
    /// The index behind its last byte.
    pub end: usize,
    /// The line of its first byte, counted from 1.
    pub line: u32,
    /// The column of its first byte, counted in bytes from 1.
    pub column: u32,
}

/// A list of tokens.
#[derive(Drop)]
pub struct Tokens {
    items: Vec<Token>,
}

impl Model for Tokens {
    ghost use Rattle.std.specs.Prelude.{List};
    ghost use Rattle.masm_lex.specs.declared.list.Token.{Token};

    ghost Value = { List Token };

    ghost view = { λ a. a.items.items };
}

impl Tokens {
    // The empty list. It allocates nothing.
    pub(crate) fn new(alloc: Global) -> Tokens
        ensures empty { result ≡ [] }
    {
        Tokens {
            items: Vec::new(alloc),
        }
    }

    // Adds a token at the end. At an error the list is as before.
    pub(crate) fn push(&mut self, token: Token) -> Result<(), AllocError>
        ensures ok { OnOk result (self.new ≡ self.old ++ token ∷ []) }
        ensures err { OnErr result (self.new ≡ self.old) }
    {
        self.items.push(token)?;
        Ok(())
    }

    /// The tokens, in order.
    pub fn as_slice(&self) -> &[Token]
        ensures items { result.now ≡ self.now }
    {
        self.items.as_slice()
    }

    /// How many tokens there are.
    pub fn len(&self) -> usize
        ensures { result ≡ length self.now }
    {
        self.items.len()
    }

    /// Whether there is no token.
    pub fn is_empty(&self) -> bool
        ensures { IsTrue result ↔ (self.now ≡ []) }
    {
        self.items.is_empty()
    }
}

impl Token {
    /// The bytes of a token of the source.
    pub fn text<'a>(&self, source: &'a [u8]) -> &'a [u8]
        requires { IsPart source.now self.now }
        ensures { result.now ≡ text_of source.entry.now self.now }
    {
        &source[self.start..self.end]
    }
}

/// The bytes of the token at a place of the list that `lex` gave for the source.
pub fn token_text<'a>(source: &'a [u8], tokens: &Tokens, i: usize) -> &'a [u8]
    requires tokens { lexed source.now ≡ Ok tokens.now }
    requires i { i < length tokens.now }
    ensures { HoldsAt (λ token. result.now ≡ text_of source.entry.now token) tokens.now i }
{
    tokens.as_slice()[i].text(source)
}

/// Each token of a source is a part of it, and has the place of its first byte.
pub fn tokens_are_parts()
    ensures { TokensAreParts }
{}

/// The tokens of a source stand in its order: each begins behind the end of those before it, on a
/// later line or in a later column.
pub fn tokens_ascend()
    ensures { TokensAscend }
{}
