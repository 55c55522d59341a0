ghost use Rattle.std.specs.Prelude.{◌≡◌, ◌≢◌, ℕ, ◌+◌, ◌-◌, ◌<◌, ◌≤◌, ◌↔◌, false, List, ◌++◌, drop, length, slice_index, Some, None, unwrap_or, Ok, Err, All};
ghost use Rattle.vm_field.specs.Limits.{number_of_constants};
ghost use Rattle.vm_field.specs.Field.{prime, AreElements};
ghost use Rattle.vm_field.specs.Machine.{State, IsWellFormed};
ghost use Rattle.vm_ops.specs.Codes.{code_of, op_at, reads_elsewhere, writes_memory};
ghost use Rattle.vm_ops.specs.declared.cause.Cause.{Cause};
ghost use Rattle.vm_ops.specs.declared.item.Item.{Item};
ghost use Rattle.vm_ops.specs.declared.op.Op.{Op};
ghost use Rattle.vm_ops.specs.Items.{IsOrdinaryItem};
ghost use Rattle.vm_ops.specs.Moves.{computes_of, leaves_of, shift_of, sources_of, takes_of};
ghost use Rattle.vm_ops.specs.Runs.{after_ok, run};
ghost use Rattle.vm_ops.specs.Sizes.{IsMadeOfElements, IsSeenBy, depth_after};
ghost use Rattle.vm_ops.specs.Step.{left_cells, step};
ghost use Rattle.vm_ops.specs.Stepping.{ShiftedBelow, IsSameCall, ShowTheSame, Stepped, Trapped};
ghost use Rattle.vm_ops.specs.Values.{Seen, advice_of, computed, trap_of};

use crate::item::{Item, Items};
use crate::op::Op;

/// The laws of the codes: operations have different codes, which are the numbers below 81.
pub fn code_laws()
    ensures below { (op : Op) → code_of op < 81 }
    ensures different { (a b : Op) → code_of a ≡ code_of b → a ≡ b }
    ensures of_op { (op : Op) → op_at (code_of op) ≡ Some op }
    ensures of_code { (code : ℕ) (op : Op) → op_at code ≡ Some op → code_of op ≡ code }
    ensures outside { (code : ℕ) → (op_at code ≡ None) ↔ (81 ≤ code) }
{}

/// The laws of what an operation leaves: as many cells as its row says, which are elements where
/// what it sees is made of them and it does not trap. What it computes depends on what its row
/// shows alone, but for the operations that read elsewhere; so does its trap, of each operation.
pub fn value_laws()
    ensures left { (op : Op) (s : Seen) → IsSeenBy op s → length (left_cells op s) ≡ leaves_of op }
    ensures elements { (op : Op) (s : Seen) → IsSeenBy op s → IsMadeOfElements s
        → trap_of op s ≡ None → AreElements (left_cells op s) }

    ensures shown { (op : Op) (a b : Seen) → reads_elsewhere op ≡ false → ShowTheSame a b
        → computed op a ≡ computed op b }
    ensures trap_shown { (op : Op) (a b : Seen) → ShowTheSame a b → trap_of op a ≡ trap_of op b }
{}

/// The laws of the step. It goes on exactly where the tape is long enough and the operation does not
/// trap. Then it adds one to the clock, changes the depth by what is left and taken, never to below
/// sixteen, and leads from one well-formed state to another.
pub fn step_laws()
    ensures ok { (constants : List ℕ) (item : Item) (s t : State)
        → (step constants item s ≡ Ok t) ↔ Stepped constants item s t }
    ensures err { (constants : List ℕ) (item : Item) (s : State) (cause : Cause)
        → (step constants item s ≡ Err cause) ↔ Trapped constants item s cause }

    ensures clock { (constants : List ℕ) (item : Item) (s t : State) → step constants item s ≡ Ok t
        → t.core.clock ≡ s.core.clock + 1 }
    ensures depth { (constants : List ℕ) (item : Item) (s t : State) → length constants ≡ number_of_constants
        → IsWellFormed s → step constants item s ≡ Ok t
        → length t.core.stack ≡ depth_after item.op (length s.core.stack) }
    ensures kept { (constants : List ℕ) (item : Item) (s t : State) → length constants ≡ number_of_constants
        → unwrap_or item.imm 0 < prime → IsWellFormed s → step constants item s ≡ Ok t
        → IsWellFormed t }
{}

/// The laws of what a step does not touch. The same function runs; the frame pointer stays but at
/// FMPUPDATE, and memory but at the operations that write it; the tape loses what is taken. Each
/// cell that is not left is one that was not taken, by which the shift moves the cells below the
/// sixteenth; and a pure move leaves copies of its sources.
pub fn frame_laws()
    ensures call { (constants : List ℕ) (item : Item) (s t : State) → step constants item s ≡ Ok t
        → IsSameCall s.core t.core }
    ensures fmp { (constants : List ℕ) (item : Item) (s t : State) → item.op ≢ Op.FmpUpdate
        → step constants item s ≡ Ok t → t.core.fmp ≡ s.core.fmp }
    ensures memory { (constants : List ℕ) (item : Item) (s t : State)
        → writes_memory item.op ≡ false → step constants item s ≡ Ok t
        → t.core.memory ≡ s.core.memory }
    ensures tape { (constants : List ℕ) (item : Item) (s t : State) → step constants item s ≡ Ok t
        → t.tape ≡ drop (advice_of item.op) s.tape }

    ensures untouched { (constants : List ℕ) (item : Item) (s t : State) (j : ℕ)
        → length constants ≡ number_of_constants → IsWellFormed s → step constants item s ≡ Ok t
        → leaves_of item.op ≤ j → slice_index t.core.stack j
        ≡ slice_index s.core.stack (takes_of item.op + (j - leaves_of item.op)) }
    ensures below { (constants : List ℕ) (item : Item) (s t : State) → length constants ≡ number_of_constants
        → IsWellFormed s → step constants item s ≡ Ok t
        → ShiftedBelow (shift_of item.op) s.core.stack t.core.stack }
    ensures moved { (constants : List ℕ) (item : Item) (s t : State) (j : ℕ)
        → length constants ≡ number_of_constants → IsWellFormed s → step constants item s ≡ Ok t
        → computes_of item.op ≡ 0 → j < leaves_of item.op
        → slice_index t.core.stack j ≡ slice_index s.core.stack (slice_index (sources_of item.op) j) }
{}

/// The laws of runs of items: one list runs behind another, and ordinary items lead from one
/// well-formed state to another.
pub fn run_laws()
    ensures append { (constants : List ℕ) (xs ys : List Item) (s : State)
        → run constants (xs ++ ys) s ≡ after_ok (run constants ys) (run constants xs s) }
    ensures kept { (constants : List ℕ) (items : List Item) (s t : State) → length constants ≡ number_of_constants
        → All IsOrdinaryItem items → IsWellFormed s → run constants items s ≡ Ok t
        → IsWellFormed t }
{}

fn crosses<T: Send + Sync>() {}

/// Operations, items and lists may be sent to other threads and read by several.
pub fn types_cross() {
    crosses::<Op>();
    crosses::<Item>();
    crosses::<Items>();
}
