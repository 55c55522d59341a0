ghost use Rattle.std.specs.Prelude.{◌≡◌, ◌≤◌, length, IfOk};
ghost use Rattle.answers.specs.Gives.{Gives};
ghost use Rattle.masm_lex.specs.Tokens.{IsPart, place_after};
ghost use Rattle.masm_parse.specs.Machine.{Parse, start, advance, settled, moved, step, ended};
ghost use Rattle.masm_parse.specs.Views.{parser_view, kept, refusal_in, GivesStep};
ghost use Rattle.masm_tree.specs.Views.{source_of};

use crate::configuration::Configuration;
use crate::refusal::ParseError;
use masm_lex::{MAX_SOURCE, Token, end_place};
use masm_reading::Consts;
use masm_tree::{Ast, Cause, Position, Stop, Symbol, Terminal, classify};
use std::alloc::Global;
use vm_field::Memory;

// How many statements may be open.
const MOST_OPEN: usize = 256;

// The parser between two tokens: the constants so far, the count of locals of the procedure that
// began last, and where it stands.
#[derive(Drop)]
pub(crate) struct Parser {
    pub consts: Consts,
    pub locals: u32,
    pub configuration: Configuration,
}

// The first cause that stands, where the token fits or does not.
fn settle(fault: Option<Cause>, is_deep: bool, fits: bool) -> Result<(), Stop>
    ensures { (now : Parse) → GivesStep result now (settled fault is_deep (kept fits now)) }
{
    match fault {
        Some(cause) if fits || cause.is_early() => Err(Stop::Refused(cause)),
        _ if !fits => Err(Stop::Refused(Cause::Syntax)),
        _ if is_deep => Err(Stop::Refused(Cause::TooDeep)),
        _ => Ok(()),
    }
}

impl Parser {
    #[tactic(auto, using(crate::proofs::Mirror::mirror))]
    pub(crate) fn new(alloc: Global) -> Parser
        ensures { parser_view result ≡ start }
    {
        Parser {
            consts: Consts::new(alloc),
            locals: 0,
            configuration: Configuration::Top(Vec::new(alloc)),
        }
    }

    // Goes behind a token; false where that does not fit.
    fn shift(&mut self, alloc: Global, kernel: bool, terminal: Terminal) -> Result<bool, Memory>
        ensures { IfOk result (λ fits. kept fits (parser_view self.new) ≡ advance kernel (parser_view self.old) terminal) }
    {
        match terminal {
            Terminal::Const(constant) => {
                self.consts.push(constant)?;
                Ok(self.configuration.takes_constant())
            }
            Terminal::Header(header) => {
                self.locals = header.locals;
                Ok(self.configuration.shift_header(alloc, kernel, header))
            }
            terminal => Ok(self.configuration.shift_statement(alloc, terminal)?),
        }
    }

    #[tactic(auto, unfolding(crate::specs::Machine::moved))]
    fn take(&mut self, alloc: Global, kernel: bool, symbol: Symbol) -> Result<(), Stop>
        ensures { GivesStep result (parser_view self.new) (moved kernel (parser_view self.old) symbol) }
    {
        let Symbol { terminal, fault } = symbol;
        let is_deep = terminal.is_opening() && self.configuration.depth() >= MOST_OPEN;
        let fits = self.shift(alloc, kernel, terminal)?;
        settle(fault, is_deep, fits)
    }

    // Goes behind a token of the source. The token's parts are put into the list, in place of what it
    // holds.
    #[tactic(auto, unfolding(crate::specs::Machine::step))]
    pub(crate) fn step<'a>(
        &mut self,
        alloc: Global,
        kernel: bool,
        source: &'a [u8],
        token: Token,
        parts: &mut Vec<&'a [u8]>,
    ) -> Result<(), Stop>
        requires { IsPart source.now token }
        ensures { GivesStep result (parser_view self.new) (step kernel source.entry.now (parser_view self.old) token) }
    {
        let at = Position {
            line: token.line,
            column: token.column,
        };
        let symbol = classify(
            alloc,
            kernel,
            &self.consts,
            self.locals,
            at,
            token.text(source),
            parts,
        )?;
        self.take(alloc, kernel, symbol)
    }

    // The tree, where the source may end here.
    pub(crate) fn finish(self, kernel: bool, source: &[u8]) -> Result<Ast, ParseError>
        requires { length source.now ≤ MAX_SOURCE }
        ensures { Gives source_of refusal_in result (ended kernel (place_after source.now) self.consts (parser_view self).configuration) }
    {
        let Parser {
            consts,
            configuration,
            ..
        } = self;
        match configuration {
            Configuration::Top(procs) if kernel => Ok(Ast {
                consts,
                procs,
                main: None,
            }),
            Configuration::Behind(procs, main) if !kernel => Ok(Ast {
                consts,
                procs,
                main: Some(main),
            }),
            _ => {
                let end = end_place(source);
                Err(ParseError::Bad {
                    line: end.line,
                    column: end.column,
                    cause: Cause::Syntax,
                })
            }
        }
    }
}
