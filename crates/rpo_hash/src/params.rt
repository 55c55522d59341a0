ghost use Rattle.std.specs.Prelude.{◌≡◌, ◌+◌, ◌<◌, ◌^◌, IfErr, IfOk, OnOk, MatchResult, Ok, Err, length};
ghost use Rattle.vm_field.specs.Limits.{number_of_constants};
ghost use Rattle.rpo_hash.specs.Constants.{constants_of};
ghost use Rattle.rpo_hash.specs.ParamText.{element_line, element_lines, nothing_left, parameters_of};

use crate::lines::next_line;
use std::fmt;
use thiserror::Error;
use vm_field::Felt;

/// The constants of the permutation's seven rounds.
#[derive(Clone, Copy, Debug, PartialEq, Eq)]
pub struct Params {
    /// Those that each round adds behind its first matrix product.
    pub first: [[Felt; 12]; 7],
    /// Those that each round adds behind its second matrix product.
    pub second: [[Felt; 12]; 7],
}

/// What is wrong with a line of a text of constants.
#[derive(Clone, Copy, Debug, PartialEq, Eq)]
pub enum ParamCause {
    /// The text ends where a line should start.
    Ended,
    /// The line is no canonical decimal of an element, or lacks its line feed.
    Number,
    /// The line is one too many.
    Extra,
}

impl fmt::Display for ParamCause {
    ghost use Rattle.std.specs.Prelude.{Some};
    ghost use Rattle.rpo_hash.specs.CauseText.{cause_text};

    ghost output = { λ cause. Some (cause_text cause) };

    fn fmt<W: fmt::Write>(&self, f: &mut fmt::Formatter<W>) -> fmt::Result {
        f.write_str(match self {
            ParamCause::Ended => "Ended",
            ParamCause::Number => "Number",
            ParamCause::Extra => "Extra",
        })
    }
}

/// The first line of a text of constants that is wrong.
#[derive(Clone, Copy, Debug, PartialEq, Eq, Error)]
#[error("line {line} {cause}")]
pub struct ParamError {
    /// The line's number, from 1.
    pub line: u32,
    /// What is wrong with it.
    pub cause: ParamCause,
}

impl Params {
    /// The constants that a text writes: 168 lines, each a canonical decimal and a line feed, for
    /// each round first its twelve first constants and then its twelve second ones.
    pub fn read(bytes: &[u8]) -> Result<Params, ParamError>
        ensures value { IfOk result (λ params. parameters_of bytes.now ≡ Ok (constants_of params)) }
        ensures refused { IfErr result (λ error. parameters_of bytes.now ≡ Err error) }
        ensures count { IfOk result (λ params. length (constants_of params) ≡ number_of_constants) }
    {
        let mut first = [[Felt::ZERO; 12]; 7];
        let mut second = [[Felt::ZERO; 12]; 7];
        let mut lines = Lines {
            rest: bytes,
            line: 1,
        };
        for k in 0..7 {
            first[k] = lines.twelve()?;
            second[k] = lines.twelve()?;
        }
        lines.end()?;
        Ok(Params { first, second })
    }
}

// The lines that are left of a text of constants.
#[derive(Drop)]
struct Lines<'a> {
    rest: &'a [u8],

    // The number of the next line.
    line: u32,
}

impl Lines<'_> {
    fn twelve(&mut self) -> Result<[Felt; 12], ParamError>
        requires { self.old.line + 12 < 2 ^ 32 }
        ensures read { MatchResult result
            (λ elements. element_lines 12 self.old.line self.old.rest.now ≡ Ok (elements, self.new.rest.now))
            (λ error. element_lines 12 self.old.line self.old.rest.now ≡ Err error) }
        ensures line { OnOk result (self.new.line ≡ self.old.line + 12) }
    {
        let mut elements = [Felt::ZERO; 12];
        for i in 0..12 {
            elements[i] = self.next()?;
        }
        Ok(elements)
    }

    fn next(&mut self) -> Result<Felt, ParamError>
        requires { self.old.line + 1 < 2 ^ 32 }
        ensures read { MatchResult result
            (λ element. element_line self.old.line self.old.rest.now ≡ Ok (element, self.new.rest.now))
            (λ error. element_line self.old.line self.old.rest.now ≡ Err error) }
        ensures line { OnOk result (self.new.line ≡ self.old.line + 1) }
    {
        if self.rest.is_empty() {
            return Err(self.wrong(ParamCause::Ended));
        }
        let Some((line, rest)) = next_line(self.rest) else {
            return Err(self.wrong(ParamCause::Number));
        };
        let Some(element) = Felt::read_decimal(line) else {
            return Err(self.wrong(ParamCause::Number));
        };
        self.rest = rest;
        self.line += 1;
        Ok(element)
    }

    fn end(&self) -> Result<(), ParamError>
        ensures { result ≡ nothing_left self.now.line self.now.rest.now }
    {
        if self.rest.is_empty() {
            Ok(())
        } else {
            Err(self.wrong(ParamCause::Extra))
        }
    }

    fn wrong(&self, cause: ParamCause) -> ParamError
        ensures { result ≡ record { line = self.now.line; cause = cause } }
    {
        ParamError {
            line: self.line,
            cause,
        }
    }
}
