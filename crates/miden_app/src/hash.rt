// `hash`: the digest of a file of numbers.
ghost use Rattle.std.specs.Prelude.{◌≡◌, ◌≤◌, length, IfOk, Some};
ghost use Rattle.vm_field.specs.Limits.{most_name_bytes};
ghost use Rattle.rpo_hash.specs.Constants.{constants_of};
ghost use Rattle.cmd_kit.specs.HashSteps.{hash_steps, numbers_steps};
ghost use Rattle.cmd_kit.specs.Outcomes.{ComesTo, EndsIn, SaysStatus};
ghost use Rattle.number_files.specs.Grammar.{numbers_of};
ghost use Rattle.cmd_kit.specs.HashEnds.{hash_end, digest_line};

use cmd_kit::{Outcome, Status, answered, append_word, load, load_params, malformed};
use number_files::{NumbersStop, cause_text, digest_of_elements, read_numbers};
use rpo_hash::Params;
use std::alloc::Global;
use vm_field::{Bytes, Memory, Word};
use vm_io::Shelf;

/// The longest file of numbers, in bytes.
const MOST_NUMBERS_BYTES: u64 = 262144;

/// `hash`: reads the parameters, then the numbers, and hashes these, eight to a block, with
/// domain 0.
pub fn hash_files<F: Shelf>(alloc: Global, shelf: &mut F, params: &str, numbers: &str) -> Outcome
    requires params { length params.now ≤ most_name_bytes }
    requires numbers { length numbers.now ≤ most_name_bytes }
    ensures { EndsIn (Some (hash_steps params.now numbers.now)) result (F.state shelf.old) (F.state shelf.new) }
{
    match load_params(alloc, shelf, params) {
        Ok(constants) => hash_file(alloc, shelf, &constants, numbers),
        Err(end) => end,
    }
}

// Reads and hashes the numbers.
#[tactic(auto, using(cmd_kit::proofs::ServingLemmas::work_ends))]
fn hash_file<F: Shelf>(alloc: Global, shelf: &mut F, constants: &Params, name: &str) -> Outcome
    requires { length name.now ≤ most_name_bytes }
    ensures { EndsIn (Some (numbers_steps name.now (constants_of constants.now))) result (F.state shelf.old) (F.state shelf.new) }
{
    match load(alloc, shelf, name, MOST_NUMBERS_BYTES) {
        Ok(bytes) => hash_bytes(alloc, constants, name, bytes.as_slice()),
        Err(end) => end,
    }
}

// Hashes the bytes of a file of numbers.
fn hash_bytes(alloc: Global, constants: &Params, name: &str, bytes: &[u8]) -> Outcome
    requires { length bytes.now ≤ 262144 }
    ensures { ComesTo (hash_end (constants_of constants.now) name.now (numbers_of bytes.now)) result }
{
    match read_numbers(alloc, bytes) {
        Ok(elements) => {
            let digest = digest_of_elements(constants, elements.as_slice());
            answered(Status::Ok, digest_text(alloc, &digest))
        }
        Err(NumbersStop::Malformed(error)) => {
            malformed(alloc, name, error.line, cause_text(error.cause))
        }
        Err(NumbersStop::Memory) => Outcome::Memory,
    }
}

// `digest H`
fn digest_text(alloc: Global, digest: &Word) -> Result<Bytes, Memory>
    ensures { IfOk result (λ line. line ≡ digest_line digest.now) }
{
    let mut line = Bytes::copied(alloc, b"digest ")?;
    append_word(alloc, &mut line, digest)?;
    line.append(b"\n")?;
    Ok(line)
}
