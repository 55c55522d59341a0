ghost use Rattle.std.specs.Prelude.{◌≡◌, ◌==◌, if◌then◌else◌, [], ◌∷◌, ◌++◌, OnOk};
ghost use Rattle.vm_ops.specs.Codes.{is_start_op};
ghost use Rattle.vm_table.specs.MainColumns.{addr, s};
ghost use Rattle.air_kit.specs.Flags.{op_of, HasBits};
ghost use Rattle.air_kit.specs.MainTuples.{back, called_digest, child, children_given, children_asked, front};
ghost use Rattle.bus_kit.specs.Widths.{tallied};
ghost use Rattle.bus_kit.specs.Adding.{IsCounted};
ghost use Rattle.bus_blocks.specs.Space.{HasSpace};

use air_kit::op_in;
use bus_kit::{Tally, ask, give};
use vm_field::{Felt, Memory};
use vm_ops::{Kind, Op, is_start, kind_of};
use vm_table::MainView;

/// A parent gives its children's digests, and an END asks for the child that it ends.
pub fn tuples_children<V: MainView>(
    op: Op,
    x: &V,
    y: &V,
    tally: &mut Tally<6>,
) -> Result<(), Memory>
    requires op { op ≡ op_of (V.cells x.now) }
    requires next { HasBits (V.cells y.now) }
    requires room { HasSpace (tallied tally.old) }
    ensures { OnOk result (IsCounted 2 (tallied tally.old) (tallied tally.new)
        (children_asked (V.cells x.now) (V.cells y.now)) (children_given (V.cells x.now) (V.cells y.now))) }
{
    match kind_of(op) {
        Kind::Join => give_both(x, y, tally),
        Kind::Split => give(tally, &chosen(x, y)),
        Kind::Loop => give_entered(x, y, tally),
        Kind::Call | Kind::Syscall => give(tally, &first(y, x, Felt::ZERO)),
        Kind::Dyn => give(tally, &called(y, x)),
        Kind::Repeat => give(tally, &first(x, x, Felt::ZERO)),
        Kind::End => ask(tally, &first(y, x, more_behind(y))),
        Kind::Ordinary | Kind::Span | Kind::Respan | Kind::Halt => Ok(()),
    }
}

// Both children of a JOIN.
fn give_both<V: MainView>(x: &V, y: &V, tally: &mut Tally<6>) -> Result<(), Memory>
    requires { HasSpace (tallied tally.old) }
    ensures { OnOk result (IsCounted 2 (tallied tally.old) (tallied tally.new) []
        (child (addr (V.cells y.now)) (front (V.cells x.now)) 1 ∷ child (addr (V.cells y.now)) (back (V.cells x.now)) 0 ∷ [])) }
{
    give(tally, &first(y, x, Felt::ONE))?;
    give(tally, &second(y, x))
}

// The body of a loop that is entered.
fn give_entered<V: MainView>(x: &V, y: &V, tally: &mut Tally<6>) -> Result<(), Memory>
    requires { HasSpace (tallied tally.old) }
    ensures { OnOk result (IsCounted 1 (tallied tally.old) (tallied tally.new) []
        (if s (V.cells x.now) 0 == 1 then child (addr (V.cells y.now)) (front (V.cells x.now)) 0 ∷ [] else [])) }
{
    if x.s0() == Felt::ONE {
        give(tally, &first(y, x, Felt::ZERO))
    } else {
        Ok(())
    }
}

// The child of a SPLIT that its condition chooses.
fn chosen<V: MainView>(x: &V, y: &V) -> [Felt; 6]
    ensures { result ≡ addr (V.cells y.now)
        ∷ (if s (V.cells x.now) 0 == 1 then front (V.cells x.now) else back (V.cells x.now)) ++ 0 ∷ [] }
{
    if x.s0() == Felt::ONE {
        first(y, x, Felt::ZERO)
    } else {
        second(y, x)
    }
}

// The address of one row, the digest that another one shows first, and whether another child starts behind it.
fn first<V: MainView>(parent: &V, x: &V, more: Felt) -> [Felt; 6]
    ensures { result ≡ addr (V.cells parent.now) ∷ front (V.cells x.now) ++ more ∷ [] }
{
    [parent.addr(), x.h0(), x.h1(), x.h2(), x.h3(), more]
}

// The same of the digest that it shows second, with no other child behind it.
fn second<V: MainView>(parent: &V, x: &V) -> [Felt; 6]
    ensures { result ≡ addr (V.cells parent.now) ∷ back (V.cells x.now) ++ 0 ∷ [] }
{
    [parent.addr(), x.h4(), x.h5(), x.h6(), x.h7(), Felt::ZERO]
}

// The same of the digest on top of a row's stack.
fn called<V: MainView>(parent: &V, x: &V) -> [Felt; 6]
    ensures { result ≡ addr (V.cells parent.now) ∷ called_digest (V.cells x.now) ++ 0 ∷ [] }
{
    [parent.addr(), x.s3(), x.s2(), x.s1(), x.s0(), Felt::ZERO]
}

// 1 where the row starts a block.
fn more_behind<V: MainView>(y: &V) -> Felt
    requires { HasBits (V.cells y.now) }
    ensures { result ≡ if is_start_op (op_of (V.cells y.now)) then 1 else 0 }
{
    if is_start(op_in(y)) {
        Felt::ONE
    } else {
        Felt::ZERO
    }
}
