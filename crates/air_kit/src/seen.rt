ghost use Rattle.std.specs.Prelude.{◌≡◌, ◌<◌, IfSome, if◌then◌else◌};
ghost use Rattle.vm_ops.specs.Codes.{op_at};
ghost use Rattle.air_kit.specs.BlockValues.{calls, returns};
ghost use Rattle.air_kit.specs.Decoding.{IsDecoded};
ghost use Rattle.air_kit.specs.Flags.{flag, flags_of};
ghost use Rattle.air_kit.specs.Sets.{passes_of};

use crate::decode::op_spelled;
use crate::flags::flag_in;
use crate::sets::OpSet;
use vm_field::Felt;
use vm_ops::{Op, from_opcode, opcode};
use vm_table::MainView;

/// A row of the main table with its operation, where its bits spell one that rows may have. Flags and their sums are then a
/// comparison; else they are the products and sums that they stand for.
#[derive(Drop)]
pub struct Seen<'a, V: MainView> {
    pub row: &'a V,
    op: Option<Op>,
    ghost decoded: { IsDecoded (V.cells row.now) op },
}

impl<'a, V: MainView> Seen<'a, V> {
    /// The row, decoded.
    pub fn of(row: &'a V) -> Seen<'a, V>
        ensures row { result.row ≡ row.entry }
    {
        let op = op_spelled(row);
        Seen { row, op }
    }

    /// The row's operation; none where its bits are not bits, or spell none.
    pub fn operation(&self) -> Option<Op>
        ensures { IsDecoded (V.cells self.now.row.now) result }
    {
        self.op
    }

    /// The flag of an operation.
    pub fn one(&self, op: Op) -> Felt
        ensures { result ≡ flag (V.cells self.now.row.now) op }
    {
        match self.op {
            Some(own) => one_if(opcode(op) == opcode(own)),
            None => flag_in(self.row, op),
        }
    }

    /// The sum of the flags of a set.
    pub fn sum(&self, set: OpSet) -> Felt
        ensures { result ≡ flags_of (passes_of set) (flag (V.cells self.now.row.now)) }
    {
        match self.op {
            Some(own) => one_if(set.holds(own)),
            None => sum_in(self.row, set),
        }
    }

    /// The row calls.
    #[tactic(auto, unfolding(crate::specs::BlockValues::calls))]
    pub fn calls(&self) -> Felt
        ensures { result ≡ calls (flag (V.cells self.now.row.now)) }
    {
        self.one(Op::Call) + self.one(Op::Syscall)
    }

    /// The row ends a call.
    #[tactic(auto, unfolding(crate::specs::BlockValues::returns))]
    pub fn returns(&self) -> Felt
        ensures { result ≡ returns (flag (V.cells self.now.row.now)) (V.cells self.now.row.now) }
    {
        self.one(Op::End) * (self.row.h(6) + self.row.h(7))
    }
}

fn one_if(test: bool) -> Felt
    ensures { result ≡ if test then 1 else 0 }
{
    if test { Felt::ONE } else { Felt::ZERO }
}

// The sum of the flags of a set, operation by operation.
fn sum_in<V: MainView>(row: &V, set: OpSet) -> Felt
    ensures { result ≡ flags_of (passes_of set) (flag (V.cells row.now)) }
{
    let mut total = Felt::ZERO;
    for code in (0..81u8).rev() {
        total = flag_at(row, set, code) + total;
    }
    total
}

// The term of the operation of a code.
fn flag_at<V: MainView>(row: &V, set: OpSet, code: u8) -> Felt
    requires { code < 81 }
    ensures { IfSome (op_at code) (λ op. result ≡ (if passes_of set op then flag (V.cells row.now) op else 0)) }
{
    match from_opcode(code) {
        Some(op) => {
            if set.holds(op) {
                flag_in(row, op)
            } else {
                Felt::ZERO
            }
        }
        None => Felt::ZERO,
    }
}
