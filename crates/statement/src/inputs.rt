ghost use Rattle.std.specs.Prelude.{◌≡◌, ◌<◌, All, IfOk, OnOk, Ok};
ghost use Rattle.serde_json.specs.View.{view};
ghost use Rattle.vm_field.specs.Field.{prime};
ghost use Rattle.answers.specs.Gives.{Gives};
ghost use Rattle.statement.specs.Causes.{cause_in};
ghost use Rattle.statement.specs.Inputs.{given_by, given_of, inputs_of, inputs_text};
ghost use Rattle.statement.specs.InputsJson.{inputs_data};

use crate::refusal::{TextCause, TextError};
use crate::values::{array_of, elements_of, has_keys, numbers_at, value_of};
use serde_json::{Value, json};
use std::alloc::Global;
use vm_field::{Bytes, Memory};
use vm_state::Inputs;

/// The inputs that a text writes: a JSON object of exactly the keys `advice` and `stack`, in any
/// layout, each with an array of whole numbers below 2^64 - 2^32 + 1. The stack, top first, has at
/// most 1,024 elements, the advice at most 1,048,576. A key that comes twice has its last value. A
/// refusal names the first cause that the text has.
pub fn read_inputs(alloc: Global, bytes: &[u8]) -> Result<Inputs, TextError>
    ensures { Gives given_of cause_in result (inputs_of bytes.now) }
{
    let value = value_of(alloc, bytes)?;
    inputs_from(alloc, &value)
}

fn inputs_from(alloc: Global, value: &Value) -> Result<Inputs, TextError>
    ensures { Gives given_of cause_in result (given_by (view value.now)) }
{
    if !has_keys(value, 2) {
        return Err(TextError::Bad(TextCause::Shape));
    }
    let Some(stack) = numbers_at(value, "stack") else {
        return Err(TextError::Bad(TextCause::Shape));
    };
    let Some(advice) = numbers_at(value, "advice") else {
        return Err(TextError::Bad(TextCause::Shape));
    };
    let Some(stack) = elements_of(alloc, stack)? else {
        return Err(TextError::Bad(TextCause::Element));
    };
    let Some(advice) = elements_of(alloc, advice)? else {
        return Err(TextError::Bad(TextCause::Element));
    };
    if stack.len() > Inputs::MOST_STACK || advice.len() > Inputs::MOST_ADVICE {
        return Err(TextError::Bad(TextCause::Count));
    }
    Ok(Inputs::new(stack, advice))
}

/// The one text that is written of inputs: `{"advice":[1,4,9],"stack":[]}`, with no space and no
/// line feed. `read_inputs` reads it back.
pub fn write_inputs(alloc: Global, inputs: &Inputs) -> Result<Bytes, Memory>
    ensures text { IfOk result (λ bytes. bytes ≡ inputs_text inputs.now.stack inputs.now.advice) }
    ensures back { IfOk result (λ bytes. inputs_of bytes ≡ Ok (given_of inputs.now)) }
{
    let value = value_from(alloc, inputs)?;
    Ok(Bytes::from_vec(value.to_vec(alloc)?))
}

fn value_from(alloc: Global, inputs: &Inputs) -> Result<Value, Memory>
    ensures data { IfOk result (λ v. view v ≡ inputs_data inputs.now.stack inputs.now.advice) }
    ensures stack { OnOk result (All (λ x. x < prime) inputs.now.stack) }
    ensures advice { OnOk result (All (λ x. x < prime) inputs.now.advice) }
{
    let advice = array_of(alloc, inputs.advice.as_slice())?;
    let stack = array_of(alloc, inputs.stack.as_slice())?;
    Ok(json!(in alloc; {"advice": advice, "stack": stack})?)
}
