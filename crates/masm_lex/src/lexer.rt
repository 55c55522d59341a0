ghost use Rattle.std.specs.Prelude.{◌≡◌, ◌<◌, ◌≤◌, ◌++◌, length, OnOk, OnErr};
ghost use Rattle.answers.specs.Gives.{Gives};
ghost use Rattle.masm_lex.specs.Tokens.{is_blank, is_word, lexed, refusal_in};
ghost use Rattle.masm_lex.specs.Lexer.{spot_after, ended};

use crate::MAX_SOURCE;
use crate::cursor::Cursor;
use crate::list::{Token, Tokens};
use crate::refusal::LexError;
use std::alloc::{AllocError, Global};

// Where the lexer stands behind the bytes so far.
#[derive(Clone, Copy)]
enum Spot {
    Blank,
    Comment,
    // in a token that begins at this place
    Word(Cursor),
}

fn is_blank_byte(byte: u8) -> bool
    ensures { result ≡ is_blank byte }
{
    matches!(byte, b' ' | b'\t' | b'\n' | b'\r')
}

fn is_word_byte(byte: u8) -> bool
    ensures { result ≡ is_word byte }
{
    matches!(byte, 0x21..=0x7e)
}

// Where the lexer stands behind the byte at a place, or none where that byte is refused.
fn next_spot(spot: Spot, here: Cursor, byte: u8) -> Option<Spot>
    ensures { result ≡ spot_after spot here byte }
{
    let start = match spot {
        Spot::Comment if byte != b'\n' => return Some(Spot::Comment),
        Spot::Word(start) => start,
        _ => here,
    };
    // most bytes are those of tokens
    if is_word_byte(byte) && byte != b'#' {
        Some(Spot::Word(start))
    } else if is_blank_byte(byte) {
        Some(Spot::Blank)
    } else if byte == b'#' {
        Some(Spot::Comment)
    } else {
        None
    }
}

// Adds the token that ends between two spots, if there is one.
fn add_ended(tokens: &mut Tokens, spot: Spot, now: Spot, here: Cursor) -> Result<(), AllocError>
    ensures { OnOk result (tokens.new ≡ tokens.old ++ ended spot now here) }
{
    match (spot, now) {
        (Spot::Word(start), Spot::Blank | Spot::Comment) => tokens.push(Token {
            start: start.index,
            end: here.index,
            line: start.line,
            column: start.column,
        }),
        _ => Ok(()),
    }
}

/// The tokens of a source, or the place of its first byte that may not stand there.
#[tactic(auto, using(crate::proofs::Lexing::lexing))]
pub fn lex(alloc: Global, source: &[u8]) -> Result<Tokens, LexError>
    requires { length source.now ≤ MAX_SOURCE }
    ensures { Gives (λ x. x) refusal_in result (lexed source.now) }
{
    let mut tokens = Tokens::new(alloc);
    let mut here = Cursor::FIRST;
    let mut spot = Spot::Blank;
    for byte in source {
        let Some(now) = next_spot(spot, here, *byte) else {
            return Err(LexError::Bad {
                line: here.line,
                column: here.column,
            });
        };
        add_ended(&mut tokens, spot, now, here)?;
        spot = now;
        here = here.next(*byte);
    }
    add_ended(&mut tokens, spot, Spot::Blank, here)?;
    Ok(tokens)
}
