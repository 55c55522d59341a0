use air_kit::TableName;
use buses::Bus;
use show_constraints::{
    append_bus, append_meaning, append_part, column_name, column_names, part_of, term_of, words_of,
};
use std::alloc::Global;
use std::test::Fail;
use vm_field::{Bytes, Felt, Memory};
use vm_ops::Op;

// What docs/CONSTRAINTS.md says.
const RANGE_1: &str =
    "1 F must be 0: v; without it: the table begins below 0, with p - 1 or less, and vouches for that";

const LOOPS: &str =
    "bus loops must be even: each turn runs the loop's own body; without it a false run could run another body at a later \
    turn of a loop than at its first one\n";

// What docs/SHOW.md says.
const WRITTEN: &str = "where kind 2 is a word of which element 0 is written\n";

fn bus(alloc: Global) -> Result<Bytes, Memory> {
    let mut text = Bytes::new(alloc);
    append_bus(&mut text, Bus::Loops)?;
    Ok(text)
}

fn meaning(alloc: Global) -> Result<Bytes, Memory> {
    let mut text = Bytes::new(alloc);
    append_meaning(
        &mut text,
        Bus::Memory,
        &[2, 0, 3, 11, 9, 0, 0, 0].map(Felt::from_u32),
    )?;
    Ok(text)
}

fn part(alloc: Global, table: TableName, number: u16) -> Result<Bytes, Memory> {
    let mut text = Bytes::new(alloc);
    if let Some(part) = part_of(table, number) {
        append_part(&mut text, number, &part)?;
    }
    Ok(text)
}

#[test]
fn buses_are_told_in_words(rt: HostRuntime) -> Result<(), Fail> {
    let text = bus(rt.alloc())?;
    assert_eq!(rt; text.as_slice(), LOOPS.as_bytes());
    Ok(())
}

#[test]
fn kinds_are_told_in_words(rt: HostRuntime) -> Result<(), Fail> {
    let text = meaning(rt.alloc())?;
    assert_eq!(rt; text.as_slice(), WRITTEN.as_bytes());
    Ok(())
}

#[test]
fn constraints_are_told_in_words(rt: HostRuntime) -> Result<(), Fail> {
    assert_eq!(rt; words_of(TableName::Range, 1), RANGE_1);
    assert_eq!(rt; term_of(145, Some(Op::U32Add)), Some("s0 + s1 - r"));
    Ok(())
}

#[test]
fn parts_have_their_index(rt: HostRuntime) -> Result<(), Fail> {
    let text = part(rt.alloc(), TableName::Main, 3)?;
    assert_eq!(rt; text.as_slice(), b"b2 (b2 - 1)".as_slice());
    Ok(())
}

#[test]
fn columns_have_names(rt: HostRuntime) -> Result<(), Fail> {
    assert_eq!(rt; column_names(TableName::Range).len(), 2);
    assert_eq!(rt; column_name(TableName::Main, 8), "addr");
    Ok(())
}
