ghost use Rattle.std.specs.Prelude.{◌≡◌, ◌<◌, slice_set};
ghost use Rattle.vm_field.specs.Machine.{zero_word};
ghost use Rattle.block_tree.specs.Rows.{hash_of, op_of_mark};
ghost use Rattle.machine_cycles.specs.Marks.{mark_of};

use tree_hash::{Batch, pair};
use vm_field::{Felt, Word};
use vm_ops::Op;
use vm_state::Aside;

/// What a call sets aside until it ends.
#[derive(Drop)]
pub struct Frame {
    pub context: u32,
    pub fmp: Felt,
    pub in_syscall: bool,
    pub digest: Word,
    /// The cells below the sixteenth.
    pub hidden: Aside,
}

/// A cycle that is no operation, with what its row shows.
#[derive(Drop)]
pub enum Mark {
    StartOpaque,
    StartSpan(Batch),
    StartJoin(Word, Word),
    StartSplit(Word, Word),
    StartLoop(Word),
    StartCall(Word),
    StartSyscall(Word),
    /// Whether there is a target of the digest on top of the stack.
    StartDyn(bool),
    Respan(Batch),
    Repeat(Word),
    End(Word),
    EndSpan(Word),
    EndLoop(Word),
    EndCall(Word, Frame),
    EndSyscall(Word, Frame),
}

impl Mark {
    /// The operation of the cycle's row.
    pub fn op(&self) -> Op
        ensures { result ≡ op_of_mark (mark_of self.now) }
    {
        match self {
            Mark::StartOpaque | Mark::StartSpan(_) => Op::Span,
            Mark::StartJoin(..) => Op::Join,
            Mark::StartSplit(..) => Op::Split,
            Mark::StartLoop(_) => Op::Loop,
            Mark::StartCall(_) => Op::Call,
            Mark::StartSyscall(_) => Op::Syscall,
            Mark::StartDyn(_) => Op::Dyn,
            Mark::Respan(_) => Op::Respan,
            Mark::Repeat(_) => Op::Repeat,
            Mark::End(_)
            | Mark::EndSpan(_)
            | Mark::EndLoop(_)
            | Mark::EndCall(..)
            | Mark::EndSyscall(..) => Op::End,
        }
    }

    /// The eight elements of hashing that the cycle's row shows.
    pub fn hash(&self) -> [Felt; 8]
        ensures { result ≡ hash_of (mark_of self.now) }
    {
        let zeros = Word::ZERO;
        match self {
            Mark::StartOpaque | Mark::StartDyn(_) => pair(&zeros, &zeros),
            Mark::StartSpan(batch) | Mark::Respan(batch) => batch.elements,
            Mark::StartJoin(first, second) | Mark::StartSplit(first, second) => pair(first, second),
            Mark::StartLoop(child)
            | Mark::StartCall(child)
            | Mark::StartSyscall(child)
            | Mark::Repeat(child) => pair(child, &zeros),
            Mark::End(digest) => pair(digest, &zeros),
            Mark::EndLoop(digest) => pair(digest, &flag(0)),
            Mark::EndSpan(digest) => pair(digest, &flag(1)),
            Mark::EndCall(digest, _) => pair(digest, &flag(2)),
            Mark::EndSyscall(digest, _) => pair(digest, &flag(3)),
        }
    }
}

// A 1 at this place of four, and zeros.
fn flag(place: usize) -> Word
    requires { place < 4 }
    ensures { result ≡ slice_set zero_word place 1 }
{
    let mut elements = [Felt::ZERO; 4];
    elements[place] = Felt::ONE;
    Word(elements)
}
