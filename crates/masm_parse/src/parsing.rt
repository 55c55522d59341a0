ghost use Rattle.std.specs.Prelude.{◌≡◌, ◌≤◌, length, Ok, IfOk};
ghost use Rattle.answers.specs.Gives.{Gives};
ghost use Rattle.masm_lex.specs.Tokens.{lexed};
ghost use Rattle.masm_parse.specs.Machine.{parsed};
ghost use Rattle.masm_parse.specs.Order.{IsInOrder};
ghost use Rattle.masm_tree.specs.Views.{source_of};
ghost use Rattle.masm_parse.specs.Views.{refusal_in};

use crate::parser::Parser;
use crate::refusal::ParseError;
use masm_lex::{MAX_SOURCE, Tokens};
use masm_tree::{Ast, Stop};
use std::alloc::Global;

// The parser, a token at a time.
#[tactic(auto, unfolding(crate::specs::Machine::parsed))]
fn read_tokens(
    alloc: Global,
    source: &[u8],
    tokens: &Tokens,
    kernel: bool,
) -> Result<Ast, ParseError>
    requires size { length source.now ≤ MAX_SOURCE }
    requires tokens { lexed source.now ≡ Ok tokens.now }
    ensures { Gives source_of refusal_in result (parsed kernel source.now tokens.now) }
{
    let mut parser = Parser::new(alloc);
    let mut parts = Vec::new(alloc);
    let items = tokens.as_slice();
    for token in items {
        match parser.step(alloc, kernel, source, *token, &mut parts) {
            Ok(()) => {}
            Err(Stop::Memory) => return Err(ParseError::Memory),
            Err(Stop::Refused(cause)) => {
                return Err(ParseError::Bad {
                    line: token.line,
                    column: token.column,
                    cause,
                });
            }
        }
    }
    parser.finish(kernel, source)
}

/// The syntax tree of a source, a kernel's or a program's, with the tokens that the lexer gave for
/// it; or its first refusal. What the tree holds stands in the order of the source.
pub fn parse(alloc: Global, source: &[u8], tokens: &Tokens, kernel: bool) -> Result<Ast, ParseError>
    requires size { length source.now ≤ MAX_SOURCE }
    requires tokens { lexed source.now ≡ Ok tokens.now }
    ensures tree { Gives source_of refusal_in result (parsed kernel source.now tokens.now) }
    ensures order { IfOk result (λ ast. IsInOrder (source_of ast)) }
{
    read_tokens(alloc, source, tokens, kernel)
}
