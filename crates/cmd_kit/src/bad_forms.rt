// Files that are not of their form.
ghost use Rattle.std.specs.Prelude.{◌≡◌, IfOk};
ghost use Rattle.rpo_hash.specs.CauseText.{cause_text as param_cause_text};
ghost use Rattle.cmd_kit.specs.Outcomes.{SaysStatus};
ghost use Rattle.cmd_kit.specs.Malformed.{malformed_line, malformed_table_line, malformed_text_line};

use crate::outcome::{Outcome, answered};
use crate::status::Status;
use decimal_text::append_number;
use rpo_hash::{ParamCause, ParamError};
use statement::{TextCause, cause_text};
use std::alloc::Global;
use table_file::{FileCause, cause_text as file_cause_text};
use vm_field::{Bytes, Memory};

/// `malformed NAME line N CAUSE`
#[tactic(auto, using(crate::proofs::OutcomeLemmas::says_line))]
pub fn malformed(alloc: Global, name: &str, line: u32, cause: &str) -> Outcome
    ensures { SaysStatus result Status.Malformed (malformed_line name.now line cause.now) }
{
    answered(Status::Malformed, malformed_line(alloc, name, line, cause))
}

/// The answer to parameters that are not of their form.
pub fn malformed_params(alloc: Global, name: &str, error: ParamError) -> Outcome
    ensures { SaysStatus result Status.Malformed (malformed_line name.now error.line (param_cause_text error.cause)) }
{
    malformed(alloc, name, error.line, param_cause(error.cause))
}

fn malformed_line(alloc: Global, name: &str, line: u32, cause: &str) -> Result<Bytes, Memory>
    ensures { IfOk result (λ text. text ≡ malformed_line name.now line cause.now) }
{
    let mut text = Bytes::copied(alloc, b"malformed ")?;
    text.append(name.as_bytes())?;
    text.append(b" line ")?;
    append_number(&mut text, u64::from(line))?;
    text.append(b" ")?;
    text.append(cause.as_bytes())?;
    text.append(b"\n")?;
    Ok(text)
}

/// The answer to a JSON text that is not of its form: `malformed NAME CAUSE`.
#[tactic(auto, using(crate::proofs::OutcomeLemmas::says_line))]
pub fn malformed_text(alloc: Global, name: &str, cause: TextCause) -> Outcome
    ensures { SaysStatus result Status.Malformed (malformed_text_line name.now cause) }
{
    answered(Status::Malformed, malformed_text_line(alloc, name, cause))
}

fn malformed_text_line(alloc: Global, name: &str, cause: TextCause) -> Result<Bytes, Memory>
    ensures { IfOk result (λ text. text ≡ malformed_text_line name.now cause) }
{
    let mut text = Bytes::copied(alloc, b"malformed ")?;
    text.append(name.as_bytes())?;
    text.append(b" ")?;
    text.append(cause_text(cause).as_bytes())?;
    text.append(b"\n")?;
    Ok(text)
}

/// `malformed NAME offset N CAUSE`
#[tactic(auto, using(crate::proofs::OutcomeLemmas::says_line))]
pub fn malformed_table(alloc: Global, name: &str, offset: u64, cause: FileCause) -> Outcome
    ensures { SaysStatus result Status.Malformed (malformed_table_line name.now offset cause) }
{
    answered(
        Status::Malformed,
        malformed_table_line(alloc, name, offset, cause),
    )
}

fn malformed_table_line(
    alloc: Global,
    name: &str,
    offset: u64,
    cause: FileCause,
) -> Result<Bytes, Memory>
    ensures { IfOk result (λ text. text ≡ malformed_table_line name.now offset cause) }
{
    let mut text = Bytes::copied(alloc, b"malformed ")?;
    text.append(name.as_bytes())?;
    text.append(b" offset ")?;
    append_number(&mut text, offset)?;
    text.append(b" ")?;
    text.append(file_cause_text(cause).as_bytes())?;
    text.append(b"\n")?;
    Ok(text)
}

fn param_cause(cause: ParamCause) -> &'static str
    ensures { result.now ≡ param_cause_text cause }
{
    match cause {
        ParamCause::Ended => "Ended",
        ParamCause::Number => "Number",
        ParamCause::Extra => "Extra",
    }
}
