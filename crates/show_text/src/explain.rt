//! What a refusal speaks of: the row of a fault with its constraint in words, and a tuple by its fields.
ghost use Rattle.std.specs.Prelude.{◌≡◌, ◌++◌, codes, map, OnOk};
ghost use Rattle.show_constraints.specs.Parts.{part_as_said, part_in, part_text, parts_of};
ghost use Rattle.show_constraints.specs.Terms.{term_of};
ghost use Rattle.show_text.specs.ExplainText.{constraint_line, fault_text, field_text, fields_of, fields_text, here_line, tuple_text, value_line};
ghost use Rattle.show_text.specs.Sides.{operation_at, side_of, side_text};

use crate::rows::append_rows;
use crate::sides::{Side, append_side, operation_at, side_of};
use air_kit::{Fault, TableName, Trace};
use buses::Bus;
use decimal_text::append_number;
use show_constraints::{Part, append_meaning, append_part, part_of, term_of, words_of};
use vm_field::{Bytes, Felt, Memory};

const BLOCKS: [&str; 12] = [
    "block", "parent", "kind", "ctx", "fmp", "sys", "depth", "key", "f0", "f1", "f2", "f3",
];

const CHILDREN: [&str; 6] = ["parent", "d0", "d1", "d2", "d3", "more"];

const LOOPS: [&str; 5] = ["block", "d0", "d1", "d2", "d3"];

const GROUPS: [&str; 3] = ["batch", "left", "group"];

const OVERFLOW: [&str; 3] = ["key", "cell", "below"];

const HASHER: [&str; 14] = [
    "tag", "address", "x0", "x1", "x2", "x3", "x4", "x5", "x6", "x7", "x8", "x9", "x10", "x11",
];

const BITWISE: [&str; 4] = ["op", "a", "b", "z"];

const MEMORY: [&str; 8] = ["kind", "ctx", "addr", "clk", "v0", "v1", "v2", "v3"];

const RANGE: [&str; 1] = ["v"];

const KERNEL: [&str; 4] = ["d0", "d1", "d2", "d3"];

// Half of all elements but 0: a value above it is shown as a negative number, too.
const HALF: u64 = 9223372034707292160;

/// Adds what is known of a fault: its value as a negative number where it is large, its constraint in words with the cell that is
/// wrong, or its operation's term, or the part that is meant, and the cells that are not 0 of its row and of the next one.
///
/// # Errors
///
/// `Memory` where the system gave none for the longer text.
pub fn append_fault(text: &mut Bytes, trace: &Trace, fault: &Fault) -> Result<(), Memory>
    ensures { OnOk result (text.new ≡ text.old ++ fault_text trace.now fault.now) }
{
    append_value(text, fault.value)?;
    append_constraint(text, fault.table, fault.number)?;
    append_here(text, trace, fault)?;
    let row = fault.row as usize;
    append_rows(text, trace, fault.table, row, row + 1)
}

// The value as a negative number, where it is large.
fn append_value(text: &mut Bytes, value: Felt) -> Result<(), Memory>
    ensures { OnOk result (text.new ≡ text.old ++ value_line value) }
{
    if value.value() <= HALF {
        return Ok(());
    }
    text.append(b"value ")?;
    append_number(text, value.value())?;
    text.append(b" is -")?;
    append_number(text, (-value).value())?;
    text.append(b"\n")
}

// The side of the constraint, or else its term, or the part of its words that is meant.
fn append_here(text: &mut Bytes, trace: &Trace, fault: &Fault) -> Result<(), Memory>
    ensures { OnOk result (text.new ≡ text.old ++ here_line fault.now (side_of trace.now fault.now)
        (term_of fault.now.number (operation_at trace.now fault.now)) (part_in fault.now.number (parts_of fault.now.table))) }
{
    match side_of(trace, fault) {
        Some(side) => append_side_line(text, fault, &side),
        None => match term_of(fault.number, operation_at(trace, fault)) {
            Some(term) => append_term_line(text, term),
            None => match part_of(fault.table, fault.number) {
                Some(part) => append_part_line(text, fault.number, &part),
                None => Ok(()),
            },
        },
    }
}

fn append_side_line(text: &mut Bytes, fault: &Fault, side: &Side) -> Result<(), Memory>
    ensures { OnOk result (text.new ≡ text.old ++ (codes "here " ++ side_text fault.now side.now ++ codes "\n")) }
{
    text.append(b"here ")?;
    append_side(text, fault, side)?;
    text.append(b"\n")
}

fn append_term_line(text: &mut Bytes, term: &str) -> Result<(), Memory>
    ensures { OnOk result (text.new ≡ text.old ++ (codes "here " ++ term.now ++ codes "\n")) }
{
    text.append(b"here ")?;
    text.append(term.as_bytes())?;
    text.append(b"\n")
}

fn append_part_line(text: &mut Bytes, number: u16, part: &Part) -> Result<(), Memory>
    ensures { OnOk result (text.new ≡ text.old ++ (codes "here " ++ part_text number (part_as_said part.now) ++ codes "\n")) }
{
    text.append(b"here ")?;
    append_part(text, number, part)?;
    text.append(b"\n")
}

// The constraint in words.
fn append_constraint(text: &mut Bytes, table: TableName, number: u16) -> Result<(), Memory>
    ensures { OnOk result (text.new ≡ text.old ++ constraint_line table number) }
{
    text.append(b"constraint ")?;
    text.append(words_of(table, number).as_bytes())?;
    text.append(b"\n")?;
    Ok(())
}

/// Adds a bus's tuple by its fields, and what its kind means, where it has one.
///
/// # Errors
///
/// `Memory` where the system gave none for the longer text.
pub fn append_tuple(text: &mut Bytes, bus: Bus, tuple: &[Felt]) -> Result<(), Memory>
    ensures { OnOk result (text.new ≡ text.old ++ tuple_text bus tuple.now) }
{
    text.append(b"tuple")?;
    append_fields(text, fields_of(bus), tuple)?;
    text.append(b"\n")?;
    append_meaning(text, bus, tuple)
}

fn fields_of(bus: Bus) -> &'static [&'static str]
    ensures { map (λ name. name.now) result.now ≡ fields_of bus }
{
    match bus {
        Bus::Blocks => &BLOCKS,
        Bus::Children => &CHILDREN,
        Bus::Loops => &LOOPS,
        Bus::Groups => &GROUPS,
        Bus::Overflow => &OVERFLOW,
        Bus::Hasher => &HASHER,
        Bus::Bitwise => &BITWISE,
        Bus::Memory => &MEMORY,
        Bus::Range => &RANGE,
        Bus::Kernel => &KERNEL,
    }
}

fn append_fields(text: &mut Bytes, names: &[&str], tuple: &[Felt]) -> Result<(), Memory>
    ensures { OnOk result (text.new ≡ text.old ++ fields_text (map (λ name. name.now) names.now) tuple.now) }
{
    for i in 0..names.len().min(tuple.len()) {
        append_field(text, names[i], tuple[i])?;
    }
    Ok(())
}

fn append_field(text: &mut Bytes, name: &str, value: Felt) -> Result<(), Memory>
    ensures { OnOk result (text.new ≡ text.old ++ field_text name.now value) }
{
    text.append(b" ")?;
    text.append(name.as_bytes())?;
    text.append(b"=")?;
    append_number(text, value.value())
}
