// Files that commands begin with: each is read, and then read as what it says.
ghost use Rattle.std.specs.Prelude.{◌≤◌, length, option_map, IfErr, IfOk, IfSome};
ghost use Rattle.vm_field.specs.Limits.{most_name_bytes, most_source_bytes};
ghost use Rattle.air_kit.specs.Traces.{HasCounts};
ghost use Rattle.rpo_hash.specs.Constants.{constants_of};
ghost use Rattle.statement.specs.Inputs.{given_of};
ghost use Rattle.statement.specs.Statements.{stated_of};
ghost use Rattle.cmd_kit.specs.Outcomes.{EndsThere, Loads};
ghost use Rattle.cmd_kit.specs.Sources.{file_of};
ghost use Rattle.cmd_kit.specs.Starts.{inputs_steps, kernel_steps, params_steps, source_steps, statement_steps, trace_steps};

use crate::bad_forms::{malformed_params, malformed_table, malformed_text};
use crate::loading::{
    MOST_INPUTS_BYTES, MOST_PARAMS_BYTES, MOST_SOURCE_BYTES, MOST_STATEMENT_BYTES,
    MOST_TABLE_BYTES, load, load_pieces,
};
use crate::outcome::Outcome;
use crate::source::SourceFile;
use air_kit::Trace;
use rpo_hash::Params;
use statement::{TextError, read_inputs, read_statement};
use std::alloc::Global;
use table_file::{FileError, TableReader};
use vm_io::Shelf;
use vm_state::{Inputs, Statement};

/// Reads a file of parameters. An `Err` is how the command ends, whatever was to come next; so it is of each of these calls.
#[tactic(auto, using(crate::proofs::ServingLemmas::work_ends, crate::proofs::ServingLemmas::says_comes))]
pub fn load_params<F: Shelf>(alloc: Global, shelf: &mut F, name: &str) -> Result<Params, Outcome>
    requires { length name.now ≤ most_name_bytes }
    ensures loads { IfOk result (λ params. Loads (params_steps name.now) (constants_of params) (F.state shelf.old) (F.state shelf.new)) }
    ensures ends { IfErr result (λ end. EndsThere (params_steps name.now) end (F.state shelf.old) (F.state shelf.new)) }
{
    let bytes = load(alloc, shelf, name, MOST_PARAMS_BYTES)?;
    match Params::read(bytes.as_slice()) {
        Ok(params) => Ok(params),
        Err(error) => Err(malformed_params(alloc, name, error)),
    }
}

/// Reads a source.
pub fn load_source<'a, F: Shelf>(
    alloc: Global,
    shelf: &mut F,
    name: &'a str,
) -> Result<SourceFile<'a>, Outcome>
    requires { length name.now ≤ most_name_bytes }
    ensures loads { IfOk result (λ file. Loads (source_steps name.now) (file_of file) (F.state shelf.old) (F.state shelf.new)) }
    ensures short { IfOk result (λ file. length file.text ≤ most_source_bytes) }
    ensures ends { IfErr result (λ end. EndsThere (source_steps name.now) end (F.state shelf.old) (F.state shelf.new)) }
{
    let text = load(alloc, shelf, name, MOST_SOURCE_BYTES)?;
    Ok(SourceFile { name, text })
}

/// Reads a kernel, where one is named.
pub fn load_kernel<'a, F: Shelf>(
    alloc: Global,
    shelf: &mut F,
    name: Option<&'a str>,
) -> Result<Option<SourceFile<'a>>, Outcome>
    requires { IfSome name (λ n. length n.now ≤ most_name_bytes) }
    ensures loads { IfOk result (λ kernel. Loads (kernel_steps (option_map (λ n. n.now) name.entry)) (option_map file_of kernel)
        (F.state shelf.old) (F.state shelf.new)) }
    ensures short { IfOk result (λ kernel. IfSome kernel (λ file. length file.text ≤ most_source_bytes)) }
    ensures ends { IfErr result (λ end. EndsThere (kernel_steps (option_map (λ n. n.now) name.entry)) end (F.state shelf.old) (F.state shelf.new)) }
{
    match name {
        Some(name) => Ok(Some(load_source(alloc, shelf, name)?)),
        None => Ok(None),
    }
}

/// Reads a file of inputs.
#[tactic(auto, using(crate::proofs::ServingLemmas::work_ends, crate::proofs::ServingLemmas::says_comes))]
pub fn load_inputs<F: Shelf>(alloc: Global, shelf: &mut F, name: &str) -> Result<Inputs, Outcome>
    requires { length name.now ≤ most_name_bytes }
    ensures loads { IfOk result (λ inputs. Loads (inputs_steps name.now) (given_of inputs) (F.state shelf.old) (F.state shelf.new)) }
    ensures ends { IfErr result (λ end. EndsThere (inputs_steps name.now) end (F.state shelf.old) (F.state shelf.new)) }
{
    let bytes = load(alloc, shelf, name, MOST_INPUTS_BYTES)?;
    match read_inputs(alloc, bytes.as_slice()) {
        Ok(inputs) => Ok(inputs),
        Err(TextError::Bad(cause)) => Err(malformed_text(alloc, name, cause)),
        Err(TextError::Memory) => Err(Outcome::Memory),
    }
}

/// Reads a statement.
#[tactic(auto, using(crate::proofs::ServingLemmas::work_ends, crate::proofs::ServingLemmas::says_comes))]
pub fn load_statement<F: Shelf>(
    alloc: Global,
    shelf: &mut F,
    name: &str,
) -> Result<Statement, Outcome>
    requires { length name.now ≤ most_name_bytes }
    ensures loads { IfOk result (λ statement. Loads (statement_steps name.now) (stated_of statement) (F.state shelf.old) (F.state shelf.new)) }
    ensures ends { IfErr result (λ end. EndsThere (statement_steps name.now) end (F.state shelf.old) (F.state shelf.new)) }
{
    let bytes = load(alloc, shelf, name, MOST_STATEMENT_BYTES)?;
    match read_statement(alloc, bytes.as_slice()) {
        Ok(statement) => Ok(statement),
        Err(TextError::Bad(cause)) => Err(malformed_text(alloc, name, cause)),
        Err(TextError::Memory) => Err(Outcome::Memory),
    }
}

/// Reads a table file as its bytes come, so that they never stand beside the trace.
#[tactic(auto, using(crate::proofs::ServingLemmas::work_ends, crate::proofs::ServingLemmas::says_comes))]
pub fn load_trace<F: Shelf>(alloc: Global, shelf: &mut F, name: &str) -> Result<Trace, Outcome>
    requires { length name.now ≤ most_name_bytes }
    ensures loads { IfOk result (λ trace. Loads (trace_steps name.now) trace (F.state shelf.old) (F.state shelf.new)) }
    ensures counts { IfOk result HasCounts }
    ensures ends { IfErr result (λ end. EndsThere (trace_steps name.now) end (F.state shelf.old) (F.state shelf.new)) }
{
    let mut reader = TableReader::new(alloc);
    load_pieces(alloc, shelf, name, MOST_TABLE_BYTES, &mut reader)?;
    match reader.finish() {
        Ok(trace) => Ok(trace),
        Err(FileError::Bad { offset, cause }) => Err(malformed_table(alloc, name, offset, cause)),
        Err(FileError::Memory) => Err(Outcome::Memory),
    }
}
