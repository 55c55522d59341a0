ghost use Rattle.std.specs.Prelude.{◌≡◌, ◌≤◌, length, not, is_some, IfOk};
ghost use Rattle.answers.specs.Gives.{Gives};
ghost use Rattle.masm_link.specs.Assembling.{reads};
ghost use Rattle.masm_link.specs.Programs.{refusal_in};
ghost use Rattle.masm_tree.specs.Locals.{SourceFits};
ghost use Rattle.masm_tree.specs.Views.{source_of};

use crate::refusal::{AsmError, lex_refusal, parse_refusal};
use masm_lex::{MAX_SOURCE, lex};
use masm_parse::{least_refusal, locals_fit, parse};
use masm_tree::Ast;
use std::alloc::Global;

/// The syntax tree of a source, a kernel's or a program's.
///
/// # Errors
///
/// `Bad` names the first refusal by the rules of tokens and of the grammar.
#[tactic(auto, unfolding(crate::specs::Assembling::reads))]
pub fn read(alloc: Global, text: &[u8], is_kernel: bool) -> Result<Ast, AsmError>
    requires { length text.now ≤ MAX_SOURCE }
    ensures reads { Gives source_of refusal_in result (reads is_kernel text.now) }
    ensures fits { IfOk result (λ ast. SourceFits (source_of ast)) }
    ensures main { IfOk result (λ ast. is_some ast.main ≡ not is_kernel) }
{
    least_refusal();
    locals_fit();
    let tokens = match lex(alloc, text) {
        Ok(tokens) => tokens,
        Err(error) => return Err(lex_refusal(is_kernel, error)),
    };
    match parse(alloc, text, &tokens, is_kernel) {
        Ok(ast) => Ok(ast),
        Err(error) => Err(parse_refusal(is_kernel, error)),
    }
}
