ghost use Rattle.std.specs.Prelude.{◌≡◌, ◌==◌, if◌then◌else◌, List, ◌∷◌, OnOk};
ghost use Rattle.vm_field.specs.Signs.{◌⊞◌, ◌⊠◌};
ghost use Rattle.vm_table.specs.MainColumns.{addr, h};
ghost use Rattle.air_kit.specs.Flags.{is_op, op_of};
ghost use Rattle.air_kit.specs.MainTuples.{blocks_given, blocks_asked, frame_cells, is_call_op, no_frame, kind_of_start, kind_of_end};
ghost use Rattle.bus_kit.specs.Widths.{tallied};
ghost use Rattle.bus_kit.specs.Adding.{IsCounted};
ghost use Rattle.bus_blocks.specs.Space.{HasSpace};

use bus_kit::{Tally, ask, give};
use vm_field::{Felt, Memory};
use vm_ops::{Kind, Op, is_start, kind_of};
use vm_table::MainView;

/// A start gives its block, and an END asks for the one that it ends.
pub fn tuples_blocks<V: MainView>(op: Op, x: &V, y: &V, tally: &mut Tally<12>) -> Result<(), Memory>
    requires op { op ≡ op_of (V.cells x.now) }
    requires room { HasSpace (tallied tally.old) }
    ensures { OnOk result (IsCounted 1 (tallied tally.old) (tallied tally.new)
        (blocks_asked (V.cells x.now) (V.cells y.now)) (blocks_given (V.cells x.now) (V.cells y.now))) }
{
    if is_end(op) {
        ask(tally, &ended(x, y))
    } else if is_start(op) {
        give(tally, &started(op, x, y))
    } else {
        Ok(())
    }
}

// The block that starts: it, its parent, its kind, and what the END of a call is to bring back.
fn started<V: MainView>(op: Op, x: &V, y: &V) -> [Felt; 12]
    ensures { result ≡ addr (V.cells y.now) ∷ addr (V.cells x.now) ∷ kind_of_start op (V.cells x.now)
        ∷ (if is_call_op op then frame_cells (V.cells x.now) else no_frame) }
{
    let kind = kind_of_start(op, x);
    if is_call(op) {
        framed(y.addr(), x.addr(), kind, x)
    } else {
        unframed(y.addr(), x.addr(), kind)
    }
}

// The block that ends: the same, with what the next row shows behind a call.
fn ended<V: MainView>(x: &V, y: &V) -> [Felt; 12]
    ensures { result ≡ addr (V.cells x.now) ∷ addr (V.cells y.now) ∷ kind_of_end (V.cells x.now)
        ∷ (if h (V.cells x.now) 6 ⊞ h (V.cells x.now) 7 == 1 then frame_cells (V.cells y.now) else no_frame) }
{
    let kind = kind_of_end(x);
    if x.h6() + x.h7() == Felt::ONE {
        framed(x.addr(), y.addr(), kind, y)
    } else {
        unframed(x.addr(), y.addr(), kind)
    }
}

/// Whether the operation is END.
pub fn is_end(op: Op) -> bool
    ensures { result ≡ is_op op Op.End }
{
    matches!(op, Op::End)
}

fn is_call(op: Op) -> bool
    ensures { result ≡ is_call_op op }
{
    matches!(op, Op::Call | Op::Syscall)
}

// The kind of a block that starts; 0 where none starts.
fn kind_of_start<V: MainView>(op: Op, x: &V) -> Felt
    ensures { result ≡ kind_of_start op (V.cells x.now) }
{
    match kind_of(op) {
        Kind::Join | Kind::Split | Kind::Dyn => Felt::ZERO,
        Kind::Loop => x.s0(),
        Kind::Span => Felt::from_u32(2),
        Kind::Call => Felt::from_u32(3),
        Kind::Syscall => Felt::from_u32(4),
        Kind::Ordinary | Kind::End | Kind::Repeat | Kind::Respan | Kind::Halt => Felt::ZERO,
    }
}

// The kind of a block that ends.
fn kind_of_end<V: MainView>(x: &V) -> Felt
    ensures { result ≡ kind_of_end (V.cells x.now) }
{
    x.h4() + Felt::from_u32(2) * x.h5() + Felt::from_u32(3) * x.h6() + Felt::from_u32(4) * x.h7()
}

// A block, its parent, its kind, and what a row shows of what a call sets aside.
fn framed<V: MainView>(block: Felt, parent: Felt, kind: Felt, row: &V) -> [Felt; 12]
    ensures { result ≡ block ∷ parent ∷ kind ∷ frame_cells (V.cells row.now) }
{
    [
        block,
        parent,
        kind,
        row.ctx(),
        row.fmp(),
        row.sys(),
        row.depth(),
        row.key(),
        row.f0(),
        row.f1(),
        row.f2(),
        row.f3(),
    ]
}

// A block that sets nothing aside.
fn unframed(block: Felt, parent: Felt, kind: Felt) -> [Felt; 12]
    ensures { result ≡ block ∷ parent ∷ kind ∷ no_frame }
{
    let zero = Felt::ZERO;
    [
        block, parent, kind, zero, zero, zero, zero, zero, zero, zero, zero, zero,
    ]
}
