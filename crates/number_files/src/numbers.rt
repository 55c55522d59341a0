ghost use Rattle.std.specs.Prelude.{◌≡◌, ◌≤◌, ◌<◌, ◌+◌, ◌-◌, ◌^◌, length, option_map, IfSome, IfOk};
ghost use Rattle.rpo_hash.specs.ParamText.{one_element};
ghost use Rattle.number_files.specs.Causes.{text_of_cause};
ghost use Rattle.number_files.specs.Grammar.{elements_from, is_good_count, numbers_of};
ghost use Rattle.number_files.specs.Reads.{GivesNumbers};

use rpo_hash::next_line;
use std::alloc::{AllocFailed, Global};
use vm_field::Felt;

/// What is wrong with a line of a file of numbers.
#[derive(Clone, Copy, Debug, PartialEq, Eq)]
pub enum NumbersCause {
    /// The line is no canonical decimal of an element, or lacks its line feed.
    Number,
    /// It is the line behind the last one, and the number of lines is no good one.
    Count,
}

/// The cause's name, as it is printed.
pub fn cause_text(cause: NumbersCause) -> &'static str
    ensures { result.now ≡ text_of_cause cause }
{
    match cause {
        NumbersCause::Number => "Number",
        NumbersCause::Count => "Count",
    }
}

/// The first line that is wrong.
#[derive(Clone, Copy, Debug, PartialEq, Eq)]
pub struct NumbersError {
    /// The line's number, from 1.
    pub line: u32,
    /// What is wrong with it.
    pub cause: NumbersCause,
}

/// Why bytes give no numbers.
#[derive(Clone, Copy, Debug, PartialEq, Eq)]
pub enum NumbersStop {
    /// A line is wrong.
    Malformed(NumbersError),
    /// Memory was refused.
    Memory,
}

impl<T: Drop> From<AllocFailed<T>> for NumbersStop {
    ghost use Rattle.std.specs.Prelude.{◌≡◌};
    ghost use Rattle.number_files.specs.declared.numbers.NumbersStop.TheVariants as stop;

    ghost from_gives = { λ _ e. e ≡ stop.Memory };

    fn from(_error: AllocFailed<T>) -> NumbersStop {
        NumbersStop::Memory
    }
}

/// The elements that a file of numbers writes, or its first line that is wrong.
pub fn read_numbers(alloc: Global, bytes: &[u8]) -> Result<Vec<Felt>, NumbersStop>
    requires { length bytes.now ≤ 262144 }
    ensures { GivesNumbers result (numbers_of bytes.now) }
{
    let elements = read_elements(alloc, bytes)?;
    let count = elements.len();
    if is_count(count) {
        Ok(elements)
    } else {
        Err(wrong(count, NumbersCause::Count))
    }
}

fn is_count(count: usize) -> bool
    ensures { result ≡ is_good_count count }
{
    8 <= count && count <= 8192 && count % 8 == 0
}

fn read_elements(alloc: Global, bytes: &[u8]) -> Result<Vec<Felt>, NumbersStop>
    requires { length bytes.now ≤ 262144 }
    ensures gives { GivesNumbers result (elements_from (length bytes.now) 1 bytes.now) }
    ensures few { IfOk result (λ elements. length elements.items ≤ length bytes.now) }
{
    let mut elements = Vec::new(alloc);
    let mut rest = bytes;
    while !rest.is_empty() {
        let Some(line) = read_line(rest) else {
            return Err(wrong(elements.len(), NumbersCause::Number));
        };
        elements.push(line.element)?;
        rest = line.behind;
    }
    Ok(elements)
}

// A line of a file of numbers.
#[derive(Drop)]
struct Line<'a> {
    element: Felt,

    // What stands behind the line.
    behind: &'a [u8],
}

fn read_line(bytes: &[u8]) -> Option<Line<'_>>
    ensures is { option_map (λ l. (l.element, l.behind.now)) result ≡ one_element bytes.entry.now }
    ensures shorter { IfSome result (λ l. length l.behind.now < length bytes.entry.now) }
{
    let (line, behind) = next_line(bytes)?;
    let element = Felt::read_decimal(line)?;
    Some(Line { element, behind })
}

// The line behind so many good ones is wrong.
fn wrong(good: usize, cause: NumbersCause) -> NumbersStop
    requires { good < 2 ^ 32 - 1 }
    ensures { result ≡ NumbersStop.Malformed (record { line = good + 1; cause = cause }) }
{
    NumbersStop::Malformed(NumbersError {
        line: good as u32 + 1,
        cause,
    })
}
