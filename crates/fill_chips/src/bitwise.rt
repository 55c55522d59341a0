ghost use Rattle.std.specs.Prelude.{◌≡◌, ◌*◌, ◌^◌, ◌<◌, ◌≤◌, [], ◌++◌, length, IfOk, OnOk};
ghost use Rattle.facts_bitwise.specs.BitRows.{bit_row, bitwise, row_without, rows_before, rows_of_bits};
ghost use Rattle.facts_bitwise.specs.BitTables.{HaveWords, HasWords};

use crate::hasher::bit_of;
use air_kit::BitOp;
use std::alloc::Global;
use vm_field::{Felt, Memory};
use vm_table::Table;

/// Eight rows for each operation: its operands without their lowest 28 bits, then without 24, and so on.
pub(crate) fn bitwise_table(alloc: Global, ops: &[BitOp]) -> Result<Table<12>, Memory>
    requires room { 8 * length ops.now ≤ 2 ^ 22 }
    ensures rows { IfOk result (λ table. table ≡ rows_of_bits ops.now) }
    ensures words { IfOk result (λ table. HaveWords ops.now) }
{
    let mut table = Table::new(alloc);
    table.reserve(8 * ops.len())?;
    for op in ops {
        push_operation(&mut table, *op)?;
    }
    Ok(table)
}

// Adds the eight rows of an operation.
fn push_operation(table: &mut Table<12>, op: BitOp) -> Result<(), Memory>
    ensures rows { OnOk result (table.new ≡ table.old ++ rows_before op []) }
    ensures words { HasWords op }
{
    for k in 0..8 {
        table.push_row(&row_without(28 - 4 * k, op))?;
    }
    Ok(())
}

// The row of an operation's operands but for so many of their lowest bits.
fn row_without(bits: u32, op: BitOp) -> [Felt; 12]
    requires { bits < 32 }
    ensures { result ≡ row_without bits op }
{
    bit_row(op.xor, op.a >> bits, op.b >> bits)
}

// The row of two numbers: they, their four lowest bits, and their exclusive or or their and.
fn bit_row(xor: bool, u: u32, v: u32) -> [Felt; 12]
    ensures { result ≡ bit_row xor u v }
{
    [
        bit_of(xor),
        Felt::from_u32(u),
        Felt::from_u32(v),
        Felt::from_u32(u % 2),
        Felt::from_u32(u / 2 % 2),
        Felt::from_u32(u / 4 % 2),
        Felt::from_u32(u / 8 % 2),
        Felt::from_u32(v % 2),
        Felt::from_u32(v / 2 % 2),
        Felt::from_u32(v / 4 % 2),
        Felt::from_u32(v / 8 % 2),
        Felt::from_u32(bitwise(xor, u, v)),
    ]
}

fn bitwise(xor: bool, u: u32, v: u32) -> u32
    ensures { result ≡ bitwise xor u v }
{
    if xor { u ^ v } else { u & v }
}
