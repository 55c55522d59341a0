ghost use Rattle.std.specs.Prelude.{◌≡◌, ◌==◌, if◌then◌else◌, [], ◌∷◌, OnOk};
ghost use Rattle.vm_field.specs.Signs.{◌⊞◌};
ghost use Rattle.vm_table.specs.MainColumns.{addr, h, ha, w};
ghost use Rattle.buses.specs.Counts.{once};
ghost use Rattle.air_kit.specs.Flags.{is_op, op_of};
ghost use Rattle.air_kit.specs.MainTuples.{domain_of, eight, front, hash_end, hasher_asked, twelve};
ghost use Rattle.bus_kit.specs.Tallies.{steps_tallied};
ghost use Rattle.bus_kit.specs.Adding.{IsCounted};
ghost use Rattle.bus_blocks.specs.Space.{HasSpace};

use bus_kit::{StepTally, ask};
use vm_field::{Felt, Memory};
use vm_ops::{Op, is_start, opcode};
use vm_table::MainView;

/// Rows of blocks ask for the steps of their hash, and HPERM for a permutation.
pub(crate) fn tuples_hasher<V: MainView>(
    op: Op,
    x: &V,
    y: &V,
    tally: &mut StepTally,
) -> Result<(), Memory>
    requires op { op ≡ op_of (V.cells x.now) }
    requires room { HasSpace (steps_tallied tally.old) }
    ensures { OnOk result (IsCounted 2 (steps_tallied tally.old) (steps_tallied tally.new) (hasher_asked (V.cells x.now) (V.cells y.now)) []) }
{
    match op {
        Op::Respan => ask(tally, &gone_on(x)),
        Op::End => ask(tally, &ended(x)),
        Op::HPerm => permuted(x, y, tally),
        _ => {
            if is_start(op) {
                ask(tally, &begun(op, x, y))
            } else {
                Ok(())
            }
        }
    }
}

// The input and the output of HPERM.
fn permuted<V: MainView>(x: &V, y: &V, tally: &mut StepTally) -> Result<(), Memory>
    requires { HasSpace (steps_tallied tally.old) }
    ensures { OnOk result (IsCounted 2 (steps_tallied tally.old) (steps_tallied tally.new)
        (once (4 ∷ w (V.cells x.now) 0 ∷ twelve (V.cells x.now))
        ∷ once (5 ∷ (w (V.cells x.now) 0 ⊞ 7) ∷ twelve (V.cells y.now)) ∷ []) []) }
{
    ask(tally, &whole(4, x.w0(), x))?;
    ask(tally, &whole(5, x.w0() + Felt::from_u32(7), y))
}

// The first step of a block's hash: its domain, and what the row shows.
fn begun<V: MainView>(op: Op, x: &V, y: &V) -> [Felt; 11]
    ensures { result ≡ 1 ∷ addr (V.cells y.now) ∷ domain_of op ∷ eight (V.cells x.now) }
{
    [
        Felt::ONE,
        y.addr(),
        domain_of(op),
        x.h0(),
        x.h1(),
        x.h2(),
        x.h3(),
        x.h4(),
        x.h5(),
        x.h6(),
        x.h7(),
    ]
}

// The code of the operation, and 0 for a span.
fn domain_of(op: Op) -> Felt
    ensures { result ≡ domain_of op }
{
    if is_span(op) {
        Felt::ZERO
    } else {
        Felt::from_u32(u32::from(opcode(op)))
    }
}

fn is_span(op: Op) -> bool
    ensures { result ≡ is_op op Op.Span }
{
    matches!(op, Op::Span)
}

// The step of a span's next batch.
fn gone_on<V: MainView>(x: &V) -> [Felt; 10]
    ensures { result ≡ 2 ∷ (ha (V.cells x.now) ⊞ 8) ∷ eight (V.cells x.now) }
{
    [
        Felt::from_u32(2),
        x.ha() + Felt::from_u32(8),
        x.h0(),
        x.h1(),
        x.h2(),
        x.h3(),
        x.h4(),
        x.h5(),
        x.h6(),
        x.h7(),
    ]
}

// The last step: the digest.
fn ended<V: MainView>(x: &V) -> [Felt; 6]
    ensures { result ≡ 3 ∷ hash_end (V.cells x.now) ∷ front (V.cells x.now) }
{
    [
        Felt::from_u32(3),
        hash_end(x),
        x.h0(),
        x.h1(),
        x.h2(),
        x.h3(),
    ]
}

// Where the hash ends: at the last batch of a span, or at the block's only permutation.
fn hash_end<V: MainView>(x: &V) -> Felt
    ensures { result ≡ hash_end (V.cells x.now) }
{
    let begin = if x.h5() == Felt::ONE {
        x.ha()
    } else {
        x.addr()
    };
    begin + Felt::from_u32(7)
}

// The twelve cells on top of a row's stack, element 0 of the state first.
fn whole<V: MainView>(tag: u32, address: Felt, x: &V) -> [Felt; 14]
    ensures { result ≡ tag ∷ address ∷ twelve (V.cells x.now) }
{
    [
        Felt::from_u32(tag),
        address,
        x.s11(),
        x.s10(),
        x.s9(),
        x.s8(),
        x.s7(),
        x.s6(),
        x.s5(),
        x.s4(),
        x.s3(),
        x.s2(),
        x.s1(),
        x.s0(),
    ]
}
