use std::alloc::Global;
use std::test::Fail;
use vm_field::{Felt, Memory};
use vm_ops::{
    Cause, Item, Items, Op, Shift, accesses_memory, advice, cause_text, code_laws, frame_laws,
    from_opcode, is_ordinary, is_start, leaves, opcode, run_laws, shift, sources, step_laws, takes,
    takes_advice, text, types_cross, value_laws, writes_memory,
};

// An operation with its code, its name, the cells that it takes and leaves, and its shift.
type Row = (Op, u8, &'static str, usize, usize, Shift);

static ROWS: [Row; 13] = [
    (Op::Noop, 0, "NOOP", 0, 0, Shift::Stay),
    (Op::MovDn8, 23, "MOVDN8", 9, 9, Shift::Stay),
    (Op::HPerm, 29, "HPERM", 12, 12, Shift::Stay),
    (Op::Assert, 35, "ASSERT", 1, 0, Shift::Left),
    (Op::U32MAdd, 51, "U32MADD", 3, 2, Shift::Left),
    (Op::Dup9, 61, "DUP9", 0, 1, Shift::Right),
    (Op::Push, 69, "PUSH", 0, 1, Shift::Right),
    (Op::Join, 70, "JOIN", 0, 0, Shift::Stay),
    (Op::Loop, 72, "LOOP", 1, 0, Shift::Left),
    (Op::End, 76, "END", 0, 0, Shift::Stay),
    (Op::Repeat, 77, "REPEAT", 1, 0, Shift::Left),
    (Op::Halt, 79, "HALT", 0, 0, Shift::Stay),
    (Op::Dyn, 80, "DYN", 0, 0, Shift::Stay),
];

fn is_named(row: &Row) -> bool {
    opcode(row.0) == row.1 && from_opcode(row.1) == Some(row.0) && text(row.0) == row.2
}

fn moves(row: &Row) -> bool {
    takes(row.0) == row.3 && leaves(row.0) == row.4 && shift(row.0) == row.5
}

fn is_classed(row: &Row) -> bool {
    is_ordinary(row.0) == (row.1 < 70)
        && is_start(row.0) == ((70 <= row.1 && row.1 < 76) || row.1 == 80)
}

#[test]
fn tells_operations(rt: HostRuntime) {
    for row in &ROWS {
        assert_eq!(rt; is_named(row), true);
        assert_eq!(rt; moves(row), true);
        assert_eq!(rt; is_classed(row), true);
    }
}

#[test]
fn tells_no_operation(rt: HostRuntime) {
    assert_eq!(rt; from_opcode(81), None);
    assert_eq!(rt; sources(Op::MovUp2), &[2, 0, 1][..]);
    assert_eq!(rt; cause_text(Cause::NotU32), "NotU32");
}

// The tape and memory, of the operations that touch them and of one that does not.
fn touches(op: Op) -> (usize, bool, bool, bool) {
    (
        advice(op),
        takes_advice(op),
        accesses_memory(op),
        writes_memory(op),
    )
}

#[test]
fn tells_what_is_touched(rt: HostRuntime) {
    assert_eq!(rt; touches(Op::AdvPopW), (4, true, false, false));
    assert_eq!(rt; touches(Op::MLoadW), (0, false, true, false));
    assert_eq!(rt; touches(Op::MStoreW), (0, false, true, true));
}

// PUSH of 1, then two operations, of which the second is EQZ.
fn three_items(alloc: Global) -> Result<Items, Memory> {
    let mut items = Items::new(alloc);
    items.push(Item::push(Felt::ONE))?;
    items.append(&[Item::plain(Op::Add), Item::plain(Op::Eqz)])?;
    Ok(items)
}

#[test]
fn keeps_items(rt: HostRuntime) -> Result<(), Fail> {
    let items = three_items(rt.alloc())?;
    assert_eq!(rt; items.len(), 3);
    assert_eq!(rt; items.is_empty(), false);
    assert_eq!(rt; items.as_slice()[2], Item::plain(Op::Eqz));
    Ok(())
}

#[test]
fn takes_a_vector(rt: HostRuntime) -> Result<(), Fail> {
    let items = Items::from_vec(vec![in rt.alloc(); Item::plain(Op::Eqz)]?);
    assert_eq!(rt; items.len(), 1);
    Ok(())
}

#[test]
fn writes_names(rt: HostRuntime) -> Result<(), Fail> {
    let names = format!(in rt.alloc(); "{} {}", Op::FmpAdd, Cause::BadBatch)?;
    assert_eq!(rt; names.as_str(), "FMPADD BadBatch");
    Ok(())
}

#[test]
fn states_laws() {
    code_laws();
    value_laws();
    step_laws();
    frame_laws();
    run_laws();
    types_cross();
}
