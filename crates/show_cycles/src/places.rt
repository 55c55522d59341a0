ghost use Rattle.std.specs.Prelude.{◌≡◌, ◌++◌, codes, drop, true, OnOk};
ghost use Rattle.masm_places.specs.Pending.{level_of, levels_in};
ghost use Rattle.show_cycles.specs.CycleLines.{at_text, begins_procedure, in_text, level_text, levels_text, place_text, position_text, told_text};

use decimal_text::append_number;
use masm_places::{Level, Levels, Origin, Part};
use masm_tree::Position;
use vm_field::{Bytes, Memory};

fn append_position(text: &mut Bytes, at: Position) -> Result<(), Memory>
    ensures { OnOk result (text.new ≡ text.old ++ position_text at) }
{
    append_number(text, u64::from(at.line))?;
    text.append(b":")?;
    append_number(text, u64::from(at.column))
}

// A place in a source or a kernel. The library has no lines.
fn append_place(text: &mut Bytes, origin: Origin, at: Position) -> Result<(), Memory>
    ensures { OnOk result (text.new ≡ text.old ++ place_text origin at) }
{
    match origin {
        Origin::Program => append_position(text, at),
        Origin::Library => text.append(b"library"),
        Origin::Kernel => {
            text.append(b"kernel ")?;
            append_position(text, at)
        }
    }
}

// Where a run is at a level. What a dynexec runs is not known.
fn append_at(text: &mut Bytes, level: &Level<'_>) -> Result<(), Memory>
    ensures { OnOk result (text.new ≡ text.old ++ at_text (level_of level.now) level.now.part) }
{
    match level.part {
        Part::Exec => append_place(text, level.origin, level.at),
        Part::Call => append_place(text, level.origin, level.at),
        Part::Branch => append_place(text, level.origin, level.at),
        Part::Turn => append_place(text, level.origin, level.at),
        Part::Repeat(_) => append_place(text, level.origin, level.at),
        Part::Dynamic => text.append(b"?"),
    }
}

// The procedure that a level begins, where it begins one.
fn append_in(text: &mut Bytes, level: &Level<'_>) -> Result<(), Memory>
    ensures { OnOk result (text.new ≡ text.old ++ in_text (level_of level.now) level.now.part) }
{
    match level.part {
        Part::Exec => append_procedure(text, level),
        Part::Call => append_procedure(text, level),
        Part::Branch => Ok(()),
        Part::Turn => Ok(()),
        Part::Repeat(_) => Ok(()),
        Part::Dynamic => text.append(b" in dynexec"),
    }
}

fn append_procedure(text: &mut Bytes, level: &Level<'_>) -> Result<(), Memory>
    ensures { OnOk result (text.new ≡ text.old ++ (codes " in " ++ level.now.proc.now.name)) }
{
    text.append(b" in ")?;
    text.append(level.proc.name.as_slice())
}

fn begins_procedure(part: Part) -> bool
    ensures { result ≡ begins_procedure part }
{
    match part {
        Part::Exec | Part::Call | Part::Dynamic => true,
        Part::Branch | Part::Turn | Part::Repeat(_) => false,
    }
}

// The place at a level, where it is asked for, and its procedure.
fn append_level(text: &mut Bytes, placed: bool, level: &Level<'_>) -> Result<(), Memory>
    ensures { OnOk result (text.new ≡ text.old ++ level_text placed (level_of level.now)) }
{
    if placed {
        text.append(b" at ")?;
        append_at(text, level)?;
    }
    append_in(text, level)
}

// The levels from one on outwards.
fn append_levels(text: &mut Bytes, levels: &Levels<'_>, first: usize) -> Result<(), Memory>
    ensures { OnOk result (text.new ≡ text.old ++ levels_text true (drop first (levels_in levels.now))) }
{
    let mut placed = true;
    for number in first..levels.len() {
        let Some(level) = levels.level(number) else {
            return Ok(());
        };
        append_level(text, placed, &level)?;
        placed = begins_procedure(level.part);
    }
    Ok(())
}

/// Where a run is: the place at the level of this number, and outwards each procedure with the place where it was used.
pub(crate) fn append_told(text: &mut Bytes, levels: &Levels<'_>, first: usize) -> Result<(), Memory>
    ensures { OnOk result (text.new ≡ text.old ++ told_text (drop first (levels_in levels.now))) }
{
    if first >= levels.len() {
        return text.append(b" at ?");
    }
    append_levels(text, levels, first)
}
