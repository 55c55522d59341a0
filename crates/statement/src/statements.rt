ghost use Rattle.std.specs.Prelude.{◌≡◌, IfOk, IsTrue, Ok};
ghost use Rattle.block_tree.specs.Kernels.{AreDistinct};
ghost use Rattle.serde_json.specs.View.{view, items_view};
ghost use Rattle.answers.specs.Gives.{Gives};
ghost use Rattle.statement.specs.Causes.{cause_in};
ghost use Rattle.statement.specs.Statements as statements;
ghost use Rattle.statement.specs.Statements.{claim_by, claim_from, stated_of, statement_of, statement_text};
ghost use Rattle.statement.specs.StatementJson.{statement_data};

use crate::refusal::{TextCause, TextError};
use crate::values::{
    array_of, elements_of, has_keys, numbers_at, text_at, text_of, texts_at, texts_from, value_of,
    words_of,
};
use block_tree::are_distinct;
use serde_json::{Map, Value, put};
use std::alloc::Global;
use vm_field::{Bytes, Memory, Word, Words};
use vm_state::{Inputs, Statement};

/// The statement that a text writes: a JSON object of exactly the keys `digest`, `inputs`, `kernel`
/// and `outputs`, in any layout. A digest is a word's text, in digits of either case; the kernel is
/// an array of at most 255 such texts, no two of one word. The inputs and the outputs are arrays of
/// whole numbers below 2^64 - 2^32 + 1, top first, at most 1,024 and 16 to 525,311. A key that comes
/// twice has its last value. A refusal names the first cause that the text has.
pub fn read_statement(alloc: Global, bytes: &[u8]) -> Result<Statement, TextError>
    ensures { Gives stated_of cause_in result (statement_of bytes.now) }
{
    let value = value_of(alloc, bytes)?;
    statement_by(alloc, &value)
}

fn statement_by(alloc: Global, value: &Value) -> Result<Statement, TextError>
    ensures { Gives stated_of cause_in result (claim_by (view value.now)) }
{
    if !has_keys(value, 4) {
        return Err(TextError::Bad(TextCause::Shape));
    }
    let Some(digest) = text_at(value, "digest") else {
        return Err(TextError::Bad(TextCause::Shape));
    };
    let Some(inputs) = numbers_at(value, "inputs") else {
        return Err(TextError::Bad(TextCause::Shape));
    };
    let Some(kernel) = texts_at(value, "kernel") else {
        return Err(TextError::Bad(TextCause::Shape));
    };
    let Some(outputs) = numbers_at(value, "outputs") else {
        return Err(TextError::Bad(TextCause::Shape));
    };
    statement_from(alloc, digest, inputs, kernel, outputs)
}

// The statement of the texts and the numbers.
fn statement_from(
    alloc: Global,
    digest: &str,
    inputs: &[Value],
    kernel: &[Value],
    outputs: &[Value],
) -> Result<Statement, TextError>
    ensures { Gives stated_of cause_in result (claim_from (record {
      digest = digest.now;
      inputs = items_view inputs.now;
      kernel = items_view kernel.now;
      outputs = items_view outputs.now;
    })) }
{
    let Some(inputs) = elements_of(alloc, inputs)? else {
        return Err(TextError::Bad(TextCause::Element));
    };
    let Some(outputs) = elements_of(alloc, outputs)? else {
        return Err(TextError::Bad(TextCause::Element));
    };
    let Some(digest) = Word::from_hex(digest.as_bytes()) else {
        return Err(TextError::Bad(TextCause::Digest));
    };
    let Some(kernel) = words_of(alloc, kernel)? else {
        return Err(TextError::Bad(TextCause::Digest));
    };
    if inputs.len() > Inputs::MOST_STACK
        || kernel.len() > Statement::MOST_KERNEL
        || outputs.len() < Statement::LEAST_OUTPUTS
        || outputs.len() > Statement::MOST_OUTPUTS
    {
        return Err(TextError::Bad(TextCause::Count));
    }
    if !differ(&kernel) {
        return Err(TextError::Bad(TextCause::Repeated));
    }
    Ok(Statement::new(digest, kernel, inputs, outputs))
}

// Whether each word stands once in the list.
fn differ(words: &Words) -> bool
    ensures test { result ≡ statements.are_distinct words.now }
    ensures distinct { IsTrue result → AreDistinct words.now }
{
    are_distinct(words.as_slice())
}

/// The one text that is written of a statement: `{"digest":"..","inputs":[],"kernel":[],
/// "outputs":[0,..]}`, with no space and no line feed, and digests in lower case. `read_statement`
/// reads it back.
pub fn write_statement(alloc: Global, statement: &Statement) -> Result<Bytes, Memory>
    ensures text { IfOk result (λ bytes. bytes ≡ statement_text (stated_of statement.now)) }
    ensures back { IfOk result (λ bytes. statement_of bytes ≡ Ok (stated_of statement.now)) }
{
    let value = value_from(alloc, statement)?;
    Ok(Bytes::from_vec(value.to_vec(alloc)?))
}

fn value_from(alloc: Global, statement: &Statement) -> Result<Value, Memory>
    ensures { IfOk result (λ v. view v ≡ statement_data (stated_of statement.now)) }
{
    let digest = text_of(alloc, &statement.digest)?;
    let inputs = array_of(alloc, statement.inputs.as_slice())?;
    let kernel = texts_from(alloc, statement.kernel.as_slice())?;
    let outputs = array_of(alloc, statement.outputs.as_slice())?;
    let mut members = Map::new(alloc);
    put(&mut members, alloc, "digest", digest)?;
    put(&mut members, alloc, "inputs", inputs)?;
    put(&mut members, alloc, "kernel", kernel)?;
    put(&mut members, alloc, "outputs", outputs)?;
    Ok(Value::Object(members))
}
