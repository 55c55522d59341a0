ghost use Rattle.std.specs.Prelude.{◌≡◌, ◌+◌, ◌*◌, ◌-◌, ◌^◌, ◌<◌, length, All, IfOk};
ghost use Rattle.vm_ops.specs.Values.{bit_of};
ghost use Rattle.std.specs.List.Sorted.{IsNonDecreasingBy, IsPermutation};
ghost use Rattle.facts_memory.specs.Accesses.{access_key};
ghost use Rattle.facts_memory.specs.AccessRows.{new_address, new_context, row_behind, rows_of_accesses, step_behind};
ghost use Rattle.vm_table.specs.Layout.{row_at};
ghost use Rattle.facts_memory.specs.MemoryTables.{HasLimbs, IsSmallAccess};
ghost use Rattle.fill_chips.specs.MemoryLimbs.{AreRowsOf, HasNoFirstStep, limbs_of_access};

use crate::hasher::bit_of;
use air_kit::Access;
use chip_columns::MemoryView;
use std::alloc::Global;
use vm_field::{Felt, Memory, known_elements};
use vm_table::Table;

// What of an access's place is a new one behind another access, and by how much that has grown, less one.
#[derive(Clone, Copy, Drop)]
struct Step {
    context: bool,
    address: bool,
    grown: u32,
}

/// A row for each access, by context, then by address, then by clock.
pub(crate) fn memory_table(alloc: Global, accesses: &[Access]) -> Result<Table<14>, Memory>
    ensures rows { IfOk result (AreRowsOf accesses.now) }
    ensures first { IfOk result HasNoFirstStep }
    ensures small { IfOk result (λ table. All IsSmallAccess accesses.now) }
{
    let sorted = sorted(alloc, accesses)?;
    table_of(alloc, sorted.as_slice())
}

// A copy of accesses, in the order of their rows.
fn sorted(alloc: Global, accesses: &[Access]) -> Result<Vec<Access>, Memory>
    ensures same { IfOk result (λ sorted. IsPermutation accesses.now sorted.items) }
    ensures in_order { IfOk result (λ sorted. IsNonDecreasingBy access_key sorted.items) }
{
    let mut sorted = Vec::from_slice(alloc, accesses)?;
    sorted.sort_unstable_by_key(|access| key_of(access.ctx, access.addr, access.clk));
    Ok(sorted)
}

// The number that accesses stand by.
fn key_of(ctx: u32, addr: u32, clk: u32) -> u128
    ensures { result ≡ (ctx * 2 ^ 32 + addr) * 2 ^ 32 + clk }
{
    (u128::from(ctx) * 4294967296 + u128::from(addr)) * 4294967296 + u128::from(clk)
}

// The rows of accesses that stand in order.
fn table_of(alloc: Global, sorted: &[Access]) -> Result<Table<14>, Memory>
    ensures rows { IfOk result (λ table. table ≡ rows_of_accesses sorted.now) }
    ensures first { IfOk result HasNoFirstStep }
    ensures small { IfOk result (λ table. All IsSmallAccess sorted.now) }
{
    let mut table = Table::new(alloc);
    table.reserve(sorted.len())?;
    let mut before = None;
    for access in sorted {
        table.push_row(&row_behind(&before, *access))?;
        before = Some(*access);
    }
    Ok(table)
}

// The row of an access behind another one.
fn row_behind(before: &Option<Access>, access: Access) -> [Felt; 14]
    ensures row { result ≡ row_behind before.now access }
    ensures small { IsSmallAccess access }
{
    let step = step_behind(before, access);
    let [v0, v1, v2, v3] = access.word;
    known_elements(&access.word);
    [
        Felt::from_u32(u32::from(access.kind)),
        Felt::from_u32(access.ctx),
        Felt::from_u32(access.addr),
        Felt::from_u32(access.clk),
        v0,
        v1,
        v2,
        v3,
        bit_of(step.context),
        bit_of(step.address),
        Felt::from_u32(step.grown % 65536),
        Felt::from_u32(step.grown / 65536),
        Felt::from_u32(access.addr % 65536),
        Felt::from_u32(access.addr / 65536),
    ]
}

// The step to an access from the one before it.
fn step_behind(before: &Option<Access>, access: Access) -> Step
    ensures context { bit_of result.context ≡ new_context before.now access }
    ensures address { bit_of result.address ≡ new_address before.now access }
    ensures grown { result.grown ≡ step_behind before.now access }
{
    let Some(before) = *before else {
        return Step {
            context: true,
            address: false,
            grown: 0,
        };
    };
    let context = before.ctx != access.ctx;
    let address = !context && before.addr != access.addr;
    let grown = if context {
        access.ctx.saturating_sub(before.ctx)
    } else if address {
        access.addr.saturating_sub(before.addr)
    } else {
        access.clk.saturating_sub(before.clk)
    };
    Step {
        context,
        address,
        grown: grown.saturating_sub(1),
    }
}

/// The limbs of a row: what the range table is asked for it.
pub(crate) fn limbs_of(memory: &Table<14>, i: usize) -> [u16; 4]
    requires within { i < length memory.now }
    requires limbs { HasLimbs (row_at memory.now i) }
    ensures { result ≡ limbs_of_access (row_at memory.now i) }
{
    let row = memory.row(i);
    [
        row.d0().value() as u16,
        row.d1().value() as u16,
        row.a0().value() as u16,
        row.a1().value() as u16,
    ]
}
