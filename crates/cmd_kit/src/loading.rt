ghost use Rattle.std.specs.Prelude.{ℕ, List, [], Some, Err, ◌≤◌, length, IfOk, OnOk, IfErr};
ghost use Rattle.vm_field.specs.Limits.{most_name_bytes};
ghost use Rattle.vm_io.specs.Shelf.{ReadStep, ShelfState};
ghost use Rattle.cmd_kit.specs.Outcomes.{EndsIn, Continues};
ghost use Rattle.cmd_kit.specs.Steps.{Steps, reading};

use crate::outcome::{Outcome, named_answer};
use crate::status::Status;
use std::alloc::Global;
use vm_field::Bytes;
use vm_io::{ReadStop, Shelf, Taker};

/// The longest file of parameters, in bytes.
pub const MOST_PARAMS_BYTES: u64 = 4096;

/// The longest source, in bytes; a kernel's, too.
pub const MOST_SOURCE_BYTES: u64 = 1_048_576;

/// The longest file of inputs, in bytes.
pub const MOST_INPUTS_BYTES: u64 = 33_554_432;

/// The longest statement, in bytes.
pub const MOST_STATEMENT_BYTES: u64 = 16_777_216;

/// The longest table file, in bytes.
pub const MOST_TABLE_BYTES: u64 = 1_073_741_824;

/// Reads a file of at most `most` bytes. An `Err` is how the command ends, whatever was to come
/// next.
#[tactic(auto, using(crate::proofs::ServingLemmas::goes_past_read))]
pub fn load<F: Shelf>(alloc: Global, shelf: &mut F, name: &str, most: u64) -> Result<Bytes, Outcome>
    requires { length name.now ≤ most_name_bytes }
    ensures found { IfOk result (λ bytes. (next : List ℕ → Steps)
        → Continues (reading name.now most next) (next bytes) (F.state shelf.old) (F.state shelf.new)) }
    ensures short { IfOk result (λ bytes. length bytes ≤ most) }
    ensures stopped { IfErr result (λ end. (next : List ℕ → Steps)
        → EndsIn (Some (reading name.now most next)) end (F.state shelf.old) (F.state shelf.new)) }
{
    match shelf.read(alloc, name, most) {
        Ok(bytes) => Ok(bytes),
        Err(stop) => Err(unread(alloc, name, stop)),
    }
}

/// Reads a file as `load` does, for a taker that has taken nothing yet.
pub fn load_pieces<F: Shelf, T: Taker>(
    alloc: Global,
    shelf: &mut F,
    name: &str,
    most: u64,
    taker: &mut T,
) -> Result<(), Outcome>
    requires name { length name.now ≤ most_name_bytes }
    requires fresh { T.took taker.old [] }
    ensures found { OnOk result ((bytes : List ℕ) × T.took taker.new bytes × ((next : List ℕ → Steps)
        → Continues (reading name.now most next) (next bytes) (F.state shelf.old) (F.state shelf.new))) }
    ensures stopped { IfErr result (λ end. (next : List ℕ → Steps)
        → EndsIn (Some (reading name.now most next)) end (F.state shelf.old) (F.state shelf.new)) }
{
    match shelf.read_pieces(name, most, taker) {
        Ok(()) => Ok(()),
        Err(stop) => Err(unread(alloc, name, stop)),
    }
}

// How a command ends at a file that was not read.
#[tactic(auto, using(crate::proofs::ServingLemmas::gives_up_at))]
fn unread(alloc: Global, name: &str, stop: ReadStop) -> Outcome
    requires { length name.now ≤ most_name_bytes }
    ensures { (old new : ShelfState) (most : ℕ) (next : List ℕ → Steps) → ReadStep old new name.now most (Err stop)
        → EndsIn (Some (reading name.now most next)) result old new }
{
    match stop {
        ReadStop::Missing => named_answer(alloc, Status::Missing, "missing ", name),
        ReadStop::TooLong => named_answer(alloc, Status::TooLong, "too long ", name),
        ReadStop::Failed => named_answer(alloc, Status::ReadFault, "read fault ", name),
        ReadStop::Memory => Outcome::Memory,
    }
}
