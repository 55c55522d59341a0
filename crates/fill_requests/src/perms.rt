ghost use Rattle.std.specs.Prelude.{◌≡◌, ◌++◌, [], ◌∷◌, false, reverse, take, OnOk};
ghost use Rattle.vm_field.specs.Sponge.{begun};
ghost use Rattle.vm_ops.specs.Codes.{code_of};
ghost use Rattle.complete_rows.specs.RunRequests.{hash_perms, perms_by_op};
ghost use Rattle.fill_requests.specs.Asked.{perms_as};

use air_kit::Perm;
use machine_cycles::Event;
use perm_memo::Permutations;
use vm_field::{Felt, Memory, Sequence};
use vm_ops::{Kind, Op, opcode};

// Adds the permutations of an event of a kind, where its span has these later batches.
#[tactic(auto, using(crate::proofs::ChainLemmas::one_block))]
pub(crate) fn push_perms(
    permutations: &mut Permutations,
    perms: &mut Sequence<Perm>,
    kind: Kind,
    event: &Event,
    batches: &[[Felt; 8]],
) -> Result<(), Memory>
    ensures perms { OnOk result (perms.new ≡ perms.old ++ perms_as kind permutations.old event.now batches.now) }
    ensures same { permutations.new ≡ permutations.old }
{
    match kind {
        Kind::Ordinary => push_operation(perms, event),
        Kind::Span => push_hash(permutations, perms, Felt::ZERO, &event.hash, batches),
        Kind::Join => push_block(perms, Op::Join, &event.hash),
        Kind::Split => push_block(perms, Op::Split, &event.hash),
        Kind::Loop => push_block(perms, Op::Loop, &event.hash),
        Kind::Call => push_block(perms, Op::Call, &event.hash),
        Kind::Syscall => push_block(perms, Op::Syscall, &event.hash),
        Kind::Dyn => push_block(perms, Op::Dyn, &event.hash),
        Kind::End | Kind::Repeat | Kind::Respan | Kind::Halt => Ok(()),
    }
}

// HPERM's.
fn push_operation(perms: &mut Sequence<Perm>, event: &Event) -> Result<(), Memory>
    ensures { OnOk result (perms.new ≡ perms.old ++ perms_by_op event.now.op event.now.before) }
{
    match event.op {
        Op::HPerm => perms.push(Perm {
            mode: true,
            cont: false,
            more: false,
            start: turned(&event.before.cells),
        }),
        _ => Ok(()),
    }
}

// The first twelve cells, the last of them first.
#[tactic(auto, using(crate::proofs::Elements::twelve_turned))]
fn turned(cells: &[Felt; 16]) -> [Felt; 12]
    ensures { result ≡ reverse (take 12 cells.now) }
{
    [
        cells[11], cells[10], cells[9], cells[8], cells[7], cells[6], cells[5], cells[4], cells[3],
        cells[2], cells[1], cells[0],
    ]
}

// That of the hash of another block.
fn push_block(perms: &mut Sequence<Perm>, start: Op, hash: &[Felt; 8]) -> Result<(), Memory>
    ensures { OnOk result (perms.new ≡ perms.old
        ++ record { mode = false; cont = false; more = false; start = take 4 (begun (code_of start)) ++ hash.now } ∷ []) }
{
    let state = begun(Felt::from_u32(u32::from(opcode(start))));
    perms.push(perm(false, false, absorbing(&state, hash)))
}

// Those of the hash of a domain and blocks.
fn push_hash(
    permutations: &mut Permutations,
    perms: &mut Sequence<Perm>,
    domain: Felt,
    first: &[Felt; 8],
    later: &[[Felt; 8]],
) -> Result<(), Memory>
    ensures perms { OnOk result (perms.new ≡ perms.old ++ hash_perms permutations.old domain (first.now ∷ later.now)) }
    ensures same { permutations.new ≡ permutations.old }
{
    let mut state = begun(domain);
    let mut block = *first;
    let mut going = false;
    for i in 0..later.len() {
        let start = absorbing(&state, &block);
        perms.push(perm(going, true, start))?;
        state = permutations.permuted(&start);
        block = later[i];
        going = true;
    }
    perms.push(perm(going, false, absorbing(&state, &block)))?;
    Ok(())
}

// A permutation of a hash.
fn perm(cont: bool, more: bool, start: [Felt; 12]) -> Perm
    ensures { result ≡ record { mode = false; cont = cont; more = more; start = start } }
{
    Perm {
        mode: false,
        cont,
        more,
        start,
    }
}

// The state before the first block.
fn begun(domain: Felt) -> [Felt; 12]
    ensures { result ≡ begun domain }
{
    let mut state = [Felt::ZERO; 12];
    state[1] = domain;
    state
}

// A block in the rate of a state.
fn absorbing(state: &[Felt; 12], block: &[Felt; 8]) -> [Felt; 12]
    ensures { result ≡ take 4 state.now ++ block.now }
{
    [
        state[0], state[1], state[2], state[3], block[0], block[1], block[2], block[3], block[4],
        block[5], block[6], block[7],
    ]
}
