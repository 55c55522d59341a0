ghost use Rattle.std.specs.Prelude.{◌≡◌, ◌<◌, ◌≤◌, ◌+◌, ◌==◌, List, ◌++◌, [], ◌∷◌, length, take, slice_index};
ghost use Rattle.machine_cycles.specs.declared.event.Event as shown;
ghost use Rattle.vm_field.specs.Field.{felt_inv, prime};
ghost use Rattle.vm_field.specs.Signs.{◌⊟◌};
ghost use Rattle.air_kit.specs.DeepCells.{key_of};
ghost use Rattle.complete_rows.specs.Decoder.{address_of};
ghost use Rattle.complete_rows.specs.Filling.{hash_by, in_use_by, row_of, witnesses_by};
ghost use Rattle.vm_ops.specs.Values.{bit_of};
ghost use Rattle.complete_rows.specs.Lines.{code_bit};
ghost use Rattle.complete_rows.specs.Turns.{repeats};
ghost use Rattle.complete_rows.specs.Witnesses.{operation_witnesses};
ghost use Rattle.vm_ops.specs.Codes.{is_ordinary_op, kind_of};
ghost use Rattle.vm_ops.specs.declared.kind.Kind.TheVariants as kinds;
ghost use Rattle.fill_requests.specs.Parts.{eight_of, four_of, sixteen_of};
ghost use Rattle.fill_decoder.specs.Bounds.{ShowsElements};
ghost use Rattle.fill_decoder.specs.Views.{decoder_in};

use crate::cells::{block_cells, depth_cells, felt_of, group_cells, state_cells};
use crate::inverses::Inverses;
use crate::witnesses::{batch_witnesses, operation_witnesses};
use fill_decoder::Decoder;
use fill_requests::limbs_of;
use machine_cycles::{Event, Visible};
use op_pack::in_use;
use vm_field::Felt;
use vm_ops::{Kind, kind_of};
use vm_table::column;

/// Writes the row of an event before the state behind it, over the row that stands there: each cell is
/// written. Where the event is a LOOP, its body is repeated so often.
pub(crate) fn write_row(
    row: &mut [Felt; 65],
    inverses: &mut Inverses,
    decoder: &Decoder,
    event: &Event,
    next: &Visible,
    turns: u64,
)
    requires decoder { ShowsElements (decoder_in decoder.now) }
    requires depth { event.now.before.depth < prime }
    requires turns { turns < prime }
    ensures { (later : List shown.Event) → (kind_of event.now.op ≡ kinds.Loop → turns ≡ slice_index (repeats later) 0)
        → row.new ≡ row_of (decoder_in decoder.now) event.now next.now later }
{
    let kind = kind_of(event.op);
    write_cells(row, column::CLK, &state_cells(&event.before));
    write_cells(row, column::ADDR, &open_cells(decoder, event));
    write_cells(row, column::H, &hash_cells(kind, decoder, event));
    write_cells(row, column::SP, &batch_cells(kind, decoder, event));
    write_cells(row, column::S, &stack_cells(&event.before));
    write_cells(row, column::DEPTH, &key_cells(inverses, decoder, event));
    let witnesses = witness_cells(inverses, kind, decoder, event, next, turns);
    write_cells(row, column::W, &witnesses);
    write_cells(row, column::T, &limbs_of(event, next).cells);
}

// Writes cells over those of a row from a place on.
fn write_cells(row: &mut [Felt; 65], place: usize, cells: &[Felt])
    requires { place + length cells.now ≤ 65 }
    ensures written { take (place + length cells.now) row.new ≡ take place row.old ++ cells.now }
    ensures whole { length row.new ≡ 65 }
{
    let all = &mut row[..];
    all[place..place + cells.len()].copy_from_slice(cells);
}

// The address of the newest block, and the bits of the operation.
fn open_cells(decoder: &Decoder, event: &Event) -> [Felt; 8]
    requires { address_of decoder.now.blocks < prime }
    ensures { result ≡ address_of decoder.now.blocks ∷ code_bit event.now.op 0 ∷ code_bit event.now.op 1
        ∷ code_bit event.now.op 2 ∷ code_bit event.now.op 3 ∷ code_bit event.now.op 4 ∷ code_bit event.now.op 5 ∷ code_bit event.now.op 6 ∷ [] }
{
    block_cells(felt_of(decoder.address()), event.op)
}

// The visible cells of the stack.
fn stack_cells(seen: &Visible) -> [Felt; 16]
    ensures { result ≡ sixteen_of seen.now.cells }
{
    [
        seen.cells[0],
        seen.cells[1],
        seen.cells[2],
        seen.cells[3],
        seen.cells[4],
        seen.cells[5],
        seen.cells[6],
        seen.cells[7],
        seen.cells[8],
        seen.cells[9],
        seen.cells[10],
        seen.cells[11],
        seen.cells[12],
        seen.cells[13],
        seen.cells[14],
        seen.cells[15],
    ]
}

// The columns from the stack's depth to the level of nesting.
fn key_cells(inverses: &mut Inverses, decoder: &Decoder, event: &Event) -> [Felt; 5]
    requires ha { decoder.now.ha < prime }
    requires depth { event.now.before.depth < prime }
    ensures { result ≡ event.now.before.depth ∷ key_of decoder.now.keys ∷ felt_inv (event.now.before.depth ⊟ 16)
        ∷ decoder.now.ha ∷ event.now.before.nesting ∷ [] }
{
    let ha = felt_of(decoder.ha);
    depth_cells(inverses, &event.before, decoder.key(), ha)
}

// The columns of the hash. A row of an ordinary operation shows what is left of its group there.
fn hash_cells(kind: Kind, decoder: &Decoder, event: &Event) -> [Felt; 8]
    ensures { result ≡ eight_of (hash_by kind (decoder_in decoder.now) event.now) }
{
    let zero = Felt::ZERO;
    match kind {
        Kind::Ordinary => [decoder.number, zero, zero, zero, zero, zero, zero, zero],
        Kind::Halt => [zero; 8],
        _ => eight_cells(&event.hash),
    }
}

fn eight_cells(hash: &[Felt; 8]) -> [Felt; 8]
    ensures { result ≡ eight_of hash.now }
{
    [
        hash[0], hash[1], hash[2], hash[3], hash[4], hash[5], hash[6], hash[7],
    ]
}

// The columns of the group and of the batch.
fn batch_cells(kind: Kind, decoder: &Decoder, event: &Event) -> [Felt; 6]
    requires left { length decoder.now.positions < prime }
    requires place { decoder.now.place < prime }
    ensures { result ≡ bit_of (is_ordinary_op event.now.op) ∷ length decoder.now.positions ∷ decoder.now.place
        ∷ bit_of (in_use_by kind event.now == 8) ∷ bit_of (in_use_by kind event.now == 4)
        ∷ bit_of (in_use_by kind event.now == 2) ∷ [] }
{
    let left = felt_of(decoder.positions.len() as u64);
    let place = felt_of(decoder.place);
    group_cells(event.op, left, place, positions_in_use(kind, event))
}

// How many positions are in use of a batch that begins; 0 in other rows.
fn positions_in_use(kind: Kind, event: &Event) -> usize
    ensures { result ≡ in_use_by kind event.now }
{
    match kind {
        Kind::Span | Kind::Respan => in_use(&event.hash),
        _ => 0,
    }
}

// The columns of the witnesses.
fn witness_cells(
    inverses: &mut Inverses,
    kind: Kind,
    decoder: &Decoder,
    event: &Event,
    next: &Visible,
    turns: u64,
) -> [Felt; 4]
    requires next { decoder.now.next < prime }
    requires turns { turns < prime }
    ensures { (later : List shown.Event) → (kind ≡ kinds.Loop → turns ≡ slice_index (repeats later) 0)
        → result ≡ four_of (witnesses_by kind (decoder_in decoder.now) event.now next.now later) }
{
    let zero = Felt::ZERO;
    match kind {
        Kind::Ordinary => operation_cells(inverses, decoder, event, next),
        Kind::Loop => [felt_of(turns), zero, zero, zero],
        Kind::Span | Kind::Respan => batch_witnesses(inverses, &event.hash),
        _ => [zero; 4],
    }
}

// Those of an operation.
fn operation_cells(
    inverses: &mut Inverses,
    decoder: &Decoder,
    event: &Event,
    next: &Visible,
) -> [Felt; 4]
    requires { decoder.now.next < prime }
    ensures { result ≡ operation_witnesses event.now.op decoder.now.next decoder.now.number event.now.before next.now }
{
    let address = felt_of(decoder.next);
    operation_witnesses(
        inverses,
        event.op,
        address,
        decoder.number,
        &event.before,
        next,
    )
}
