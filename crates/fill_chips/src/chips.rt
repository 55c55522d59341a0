ghost use Rattle.std.specs.Prelude.{◌≡◌, ◌++◌, ◌≤◌, IfOk};
ghost use Rattle.air_kit.specs.Requests.{Fits};
ghost use Rattle.fill_chips.specs.Beside.{AnswersBeside, HasSizes};
ghost use Rattle.fill_chips.specs.MemoryLimbs.{HasNoFirstStep, limbs_in};
ghost use Rattle.fill_chips.specs.RangeRows.{range_rows};

use crate::bitwise::bitwise_table;
use crate::hasher::hasher_table;
use crate::kernel::kernel_table;
use crate::left::left_table;
use crate::memory::memory_table;
use crate::range::range_table;
use air_kit::Requests;
use perm_memo::Permutations;
use std::alloc::Global;
use std::thread::Threads;
use vm_field::{Memory, Words};
use vm_io::Gate;
use vm_table::Table;

/// The tables of a trace beside its main table.
#[derive(Drop)]
pub struct Chips {
    pub range: Table<2>,
    pub hasher: Table<15>,
    pub bitwise: Table<12>,
    pub memory: Table<14>,
    pub kernel: Table<5>,
    pub left: Table<1>,
}

/// The small tables that answer the requests of a main table. The range table has the limbs of
/// memory's rows besides what is asked. No permutation is computed that is kept; the others are in rounds of at most 1,024, each in
/// so many pieces at once, and each piece of each round goes through the gate with its number as it begins.
pub fn fill_chips<R: Threads + Sync, G: Gate>(
    rt: &R,
    alloc: Global,
    permutations: &Permutations,
    kernel: &Words,
    requests: &Requests,
    pieces: usize,
    gate: &G,
) -> Result<Chips, Memory>
    requires fit { Fits permutations.now kernel.now requests.now }
    requires pieces { (1 ≤ pieces) × (pieces ≤ 64) }
    ensures answers { IfOk result (AnswersBeside permutations.now kernel.now requests.now) }
    ensures sizes { IfOk result (HasSizes requests.now) }
    ensures first { IfOk result (λ chips. HasNoFirstStep chips.memory) }
    ensures range { IfOk result (λ chips. chips.range ≡ range_rows (requests.now.ranges ++ limbs_in chips.memory)) }
{
    let memory = memory_table(alloc, requests.accesses.as_slice())?;
    Ok(Chips {
        range: range_table(alloc, requests.ranges.as_slice(), &memory)?,
        hasher: hasher_table(
            rt,
            alloc,
            permutations,
            requests.perms.as_slice(),
            pieces,
            gate,
        )?,
        bitwise: bitwise_table(alloc, requests.bits.as_slice())?,
        memory,
        kernel: kernel_table(alloc, kernel.as_slice(), requests.calls.as_slice())?,
        left: left_table(alloc, requests.keys.as_slice())?,
    })
}
