//! What the words behind a command's name ask for.
ghost use Rattle.std.specs.Prelude.{◌≡◌, ◌≤◌, length, map, option_map, IfOk, IfSome};
ghost use Rattle.vm_field.specs.Limits.{most_cycles, most_name_bytes};
ghost use Rattle.cmd_reading.specs.Form.{AllText};
ghost use Rattle.cmd_reading.specs.Meaning.{texts_read};
ghost use Rattle.show_app.specs.Asking.{asks, NamesFiles};
ghost use Rattle.cmd_reading.specs.Values.{name_in, option_name, option_number_or_most};
ghost use Rattle.show_app.specs.Forms.{asked_by, asked_in, row_in as row_at_place, table_in};
ghost use Rattle.show_app.specs.Showing.{all_rows_of, cycles_of, evidence_of, explain_of, last_row, one_row_of, reason_of, rows_of, run_of};
ghost use Rattle.show_app.specs.Tables.{table_named};

use crate::forms::{Form, names_of};
use air_kit::TableName;
use cmd_reading::{
    ReadWords, WordsStop, free_name, free_number_or_most, place_name, place_number, read_words,
};
use std::alloc::Global;
use vm_field::{MOST_CYCLES, Memory};

/// The greatest number that a row of a table may have.
const LAST_ROW: u64 = (1 << 22) - 1;

/// What words ask for.
pub enum Command<'a> {
    /// The words are of no command.
    Nothing,
    /// The tables of a table file and the operations of its run.
    Run {
        table: &'a str,
    },
    /// The rows of a table of it, from one to another.
    Rows {
        table: &'a str,
        name: TableName,
        first: usize,
        last: usize,
    },
    /// Why a table file is refused for a statement.
    Explain {
        params: &'a str,
        table: &'a str,
        statement: &'a str,
    },
    /// The lines of evidence.
    Evidence {
        file: &'a str,
    },
    /// The cycles of a run within a limit, with a kernel where one is named.
    Trace {
        params: &'a str,
        source: &'a str,
        inputs: &'a str,
        kernel: Option<&'a str>,
        limit: u32,
    },
    /// Why a source is refused, with a kernel where one is named.
    Why {
        source: &'a str,
        kernel: Option<&'a str>,
    },
}

/// Reads the words as a form has them. Words that have another form, or that name no files, tables or rows, ask for nothing.
pub fn command_of<'a>(
    alloc: Global,
    form: Form,
    words: &'a [&'a str],
) -> Result<Command<'a>, Memory>
    requires text { AllText (map (λ s. s.now) words.now) }
    ensures asks { IfOk result (λ c. asks c ≡ asked_by form (map (λ s. s.now) words.entry.now)) }
    ensures named { IfOk result NamesFiles }
{
    let names = names_of(form);
    match read_words(alloc, names.places, &[], names.free, words) {
        Ok(read) => Ok(command_in(form, &read)),
        Err(WordsStop::Usage) => Ok(Command::Nothing),
        Err(WordsStop::Memory) => Err(Memory::Memory),
    }
}

// The command of the texts that were read.
fn command_in<'a>(form: Form, read: &ReadWords<'a>) -> Command<'a>
    ensures asks { asks result ≡ asked_in form (texts_read read.now) }
    ensures named { NamesFiles result }
{
    match form {
        Form::Run => run_in(read),
        Form::AllRows => all_rows_in(read),
        Form::OneRow => one_row_in(read),
        Form::Rows => rows_in(read),
        Form::Explain => explain_in(read),
        Form::Evidence => evidence_in(read),
        Form::Trace => trace_in(read),
        Form::Why => why_in(read),
    }
}

fn run_in<'a>(read: &ReadWords<'a>) -> Command<'a>
    ensures asks { asks result ≡ run_of (name_in 0 (texts_read read.now).places) }
    ensures named { NamesFiles result }
{
    match place_name(read, 0) {
        Some(table) => Command::Run { table },
        None => Command::Nothing,
    }
}

fn all_rows_in<'a>(read: &ReadWords<'a>) -> Command<'a>
    ensures asks { asks result ≡ all_rows_of (name_in 0 (texts_read read.now).places) (table_in 1 (texts_read read.now).places) }
    ensures named { NamesFiles result }
{
    match (place_name(read, 0), place_table(read, 1)) {
        (Some(table), Some(name)) => Command::Rows {
            table,
            name,
            first: 0,
            last: LAST_ROW as usize,
        },
        _ => Command::Nothing,
    }
}

fn one_row_in<'a>(read: &ReadWords<'a>) -> Command<'a>
    ensures asks { asks result ≡ one_row_of (name_in 0 (texts_read read.now).places) (table_in 1 (texts_read read.now).places)
        (row_at_place 2 (texts_read read.now).places) }
    ensures named { NamesFiles result }
{
    match (
        place_name(read, 0),
        place_table(read, 1),
        place_row(read, 2),
    ) {
        (Some(table), Some(name), Some(row)) => Command::Rows {
            table,
            name,
            first: row,
            last: row,
        },
        _ => Command::Nothing,
    }
}

fn rows_in<'a>(read: &ReadWords<'a>) -> Command<'a>
    ensures asks { asks result ≡ rows_of (name_in 0 (texts_read read.now).places) (table_in 1 (texts_read read.now).places)
        (row_at_place 2 (texts_read read.now).places) (row_at_place 3 (texts_read read.now).places) }
    ensures named { NamesFiles result }
{
    let Some(table) = place_name(read, 0) else {
        return Command::Nothing;
    };
    let Some(name) = place_table(read, 1) else {
        return Command::Nothing;
    };
    let Some(first) = place_row(read, 2) else {
        return Command::Nothing;
    };
    let Some(last) = place_row(read, 3) else {
        return Command::Nothing;
    };
    if last < first {
        return Command::Nothing;
    }
    Command::Rows {
        table,
        name,
        first,
        last,
    }
}

fn explain_in<'a>(read: &ReadWords<'a>) -> Command<'a>
    ensures asks { asks result ≡ explain_of (name_in 0 (texts_read read.now).places) (name_in 1 (texts_read read.now).places)
        (name_in 2 (texts_read read.now).places) }
    ensures named { NamesFiles result }
{
    match (
        place_name(read, 0),
        place_name(read, 1),
        place_name(read, 2),
    ) {
        (Some(params), Some(table), Some(statement)) => Command::Explain {
            params,
            table,
            statement,
        },
        _ => Command::Nothing,
    }
}

fn evidence_in<'a>(read: &ReadWords<'a>) -> Command<'a>
    ensures asks { asks result ≡ evidence_of (name_in 0 (texts_read read.now).places) }
    ensures named { NamesFiles result }
{
    match place_name(read, 0) {
        Some(file) => Command::Evidence { file },
        None => Command::Nothing,
    }
}

fn trace_in<'a>(read: &ReadWords<'a>) -> Command<'a>
    ensures asks { asks result ≡ cycles_of (name_in 0 (texts_read read.now).places) (name_in 1 (texts_read read.now).places)
        (name_in 2 (texts_read read.now).places) (option_name 0 (texts_read read.now).free)
        (option_number_or_most 1 most_cycles 1 (texts_read read.now).free) }
    ensures named { NamesFiles result }
{
    let Some(params) = place_name(read, 0) else {
        return Command::Nothing;
    };
    let Some(source) = place_name(read, 1) else {
        return Command::Nothing;
    };
    let Some(inputs) = place_name(read, 2) else {
        return Command::Nothing;
    };
    match (
        free_name(read, 0),
        free_number_or_most(1, u64::from(MOST_CYCLES), read, 1),
    ) {
        (Some(kernel), Some(limit)) => Command::Trace {
            params,
            source,
            inputs,
            kernel,
            limit: limit as u32,
        },
        _ => Command::Nothing,
    }
}

fn why_in<'a>(read: &ReadWords<'a>) -> Command<'a>
    ensures asks { asks result ≡ reason_of (name_in 0 (texts_read read.now).places) (option_name 0 (texts_read read.now).free) }
    ensures named { NamesFiles result }
{
    match (place_name(read, 0), free_name(read, 0)) {
        (Some(source), Some(kernel)) => Command::Why { source, kernel },
        _ => Command::Nothing,
    }
}

// The table at a place.
fn place_table(read: &ReadWords<'_>, i: usize) -> Option<TableName>
    ensures { result ≡ table_in i (texts_read read.now).places }
{
    match place_name(read, i) {
        Some(name) => table_named(name.as_bytes()),
        None => None,
    }
}

// The number of a row at a place.
fn place_row(read: &ReadWords<'_>, i: usize) -> Option<usize>
    ensures number { result ≡ row_at_place i (texts_read read.now).places }
    ensures small { IfSome result (λ n. n ≤ last_row) }
{
    match place_number(0, LAST_ROW, read, i) {
        Some(number) => Some(number as usize),
        None => None,
    }
}

// The table of this name.
fn table_named(name: &[u8]) -> Option<TableName>
    ensures { result ≡ table_named name.now }
{
    if name == b"main".as_slice() {
        Some(TableName::Main)
    } else if name == b"range".as_slice() {
        Some(TableName::Range)
    } else if name == b"hasher".as_slice() {
        Some(TableName::Hasher)
    } else if name == b"bitwise".as_slice() {
        Some(TableName::Bitwise)
    } else if name == b"memory".as_slice() {
        Some(TableName::Memory)
    } else if name == b"kernel".as_slice() {
        Some(TableName::Kernel)
    } else if name == b"left".as_slice() {
        Some(TableName::Left)
    } else {
        None
    }
}
