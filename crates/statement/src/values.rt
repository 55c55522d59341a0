// The JSON value of a text, texts and arrays within a value, and the array of a list.
ghost use Rattle.std.specs.Prelude.{◌≡◌, ◌<◌, All, IfOk, OnOk, option_map};
ghost use Rattle.std.specs.Option.{ok_or};
ghost use Rattle.answers.specs.Gives.{Gives};
ghost use Rattle.serde_json.specs.Data.{array, string};
ghost use Rattle.serde_json.specs.View.{view, items_view};
ghost use Rattle.vm_field.specs.Field.{prime};
ghost use Rattle.vm_field.specs.WordText.{word_hex};
ghost use Rattle.statement.specs.Values as values;
ghost use Rattle.statement.specs.Values.{value_of, has_keys, numbers_at, element_of, elements_of, text_at, texts_at, word_in, words_of};
ghost use Rattle.statement.specs.Causes.{cause_in};
ghost use Rattle.statement.specs.ToJson.{numbers_of, texts_of};
ghost use Rattle.statement.specs.declared.refusal.TextCause.TheVariants.{NotJson};

use crate::refusal::{TextCause, TextError};
use serde_json::Value;
use std::alloc::Global;
use std::str;
use vm_field::{Felt, Felts, Memory, Word, Words};

/// The JSON value of a text.
pub(crate) fn value_of(alloc: Global, bytes: &[u8]) -> Result<Value, TextError>
    ensures { Gives view cause_in result (ok_or (value_of bytes.now) NotJson) }
{
    let Ok(text) = str::from_utf8(bytes) else {
        return Err(TextError::Bad(TextCause::NotJson));
    };
    match Value::from_str(alloc, text) {
        Ok(value) => Ok(value),
        Err(error) if error.is_memory() => Err(TextError::Memory),
        Err(_) => Err(TextError::Bad(TextCause::NotJson)),
    }
}

/// Whether the value is an object of so many keys.
pub(crate) fn has_keys(value: &Value, count: usize) -> bool
    ensures { result ≡ has_keys count (view value.now) }
{
    match value.as_object() {
        Some(members) => members.len() == count,
        None => false,
    }
}

/// The value of a key, if it is an array of numbers.
pub(crate) fn numbers_at<'v>(value: &'v Value, key: &str) -> Option<&'v Vec<Value>>
    ensures { option_map (λ v. items_view v.now.items) result ≡ numbers_at key.now (view value.now) }
{
    let items = value.get(key)?.as_array()?;
    if are_numbers(items) {
        Some(items)
    } else {
        None
    }
}

fn are_numbers(items: &[Value]) -> bool
    ensures { result ≡ values.are_numbers (items_view items.now) }
{
    for item in items {
        if !item.is_number() {
            return false;
        }
    }
    true
}

/// The elements that the numbers are, or nothing where one is no element.
pub(crate) fn elements_of(alloc: Global, items: &[Value]) -> Result<Option<Felts>, Memory>
    ensures { IfOk result (λ elements. elements ≡ elements_of (items_view items.now)) }
{
    let mut elements = Felts::new(alloc);
    for item in items {
        let Some(x) = element_of(item) else {
            return Ok(None);
        };
        elements.push(x)?;
    }
    Ok(Some(elements))
}

fn element_of(item: &Value) -> Option<Felt>
    ensures { result ≡ element_of (view item.now) }
{
    Felt::try_from_u64(item.as_u64()?).ok()
}

/// The array of these numbers.
pub(crate) fn array_of(alloc: Global, elements: &[Felt]) -> Result<Value, Memory>
    ensures value { IfOk result (λ v. view v ≡ array (numbers_of elements.now)) }
    ensures below { OnOk result (All (λ x. x < prime) elements.now) }
{
    let mut items = Vec::new(alloc);
    for x in elements {
        items.push(Value::from(x.value()))?;
    }
    Ok(Value::Array(items))
}

/// The text of a key, if it has one.
pub(crate) fn text_at<'v>(value: &'v Value, key: &str) -> Option<&'v str>
    ensures { option_map (λ text. text.now) result ≡ text_at key.now (view value.now) }
{
    value.get(key)?.as_str()
}

/// The value of a key, if it is an array of texts.
pub(crate) fn texts_at<'v>(value: &'v Value, key: &str) -> Option<&'v Vec<Value>>
    ensures { option_map (λ v. items_view v.now.items) result ≡ texts_at key.now (view value.now) }
{
    let items = value.get(key)?.as_array()?;
    if are_texts(items) { Some(items) } else { None }
}

fn are_texts(items: &[Value]) -> bool
    ensures { result ≡ values.are_texts (items_view items.now) }
{
    for item in items {
        if !item.is_string() {
            return false;
        }
    }
    true
}

/// The words that the texts are of, or nothing where one is of none.
pub(crate) fn words_of(alloc: Global, items: &[Value]) -> Result<Option<Words>, Memory>
    ensures { IfOk result (λ words. words ≡ words_of (items_view items.now)) }
{
    let mut words = Words::new(alloc);
    for item in items {
        let Some(word) = word_in(item) else {
            return Ok(None);
        };
        words.push(word)?;
    }
    Ok(Some(words))
}

fn word_in(item: &Value) -> Option<Word>
    ensures { result ≡ word_in (view item.now) }
{
    Word::from_hex(item.as_str()?.as_bytes())
}

/// The text of a word.
pub(crate) fn text_of(alloc: Global, word: &Word) -> Result<Value, Memory>
    ensures { IfOk result (λ v. view v ≡ string (word_hex word.now)) }
{
    Ok(Value::String(word.hex(alloc)?))
}

/// The array of the texts of these words.
pub(crate) fn texts_from(alloc: Global, words: &[Word]) -> Result<Value, Memory>
    ensures { IfOk result (λ v. view v ≡ array (texts_of words.now)) }
{
    let mut items = Vec::new(alloc);
    for word in words {
        items.push(text_of(alloc, word)?)?;
    }
    Ok(Value::Array(items))
}
