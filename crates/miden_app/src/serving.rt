ghost use Rattle.cmd_words.specs.Words.{texts};
ghost use Rattle.cmd_kit.specs.Serving.{Serves};

use crate::obeying::obey;
use cmd_check::Seed;
use cmd_kit::{Status, print};
use std::alloc::Global;
use std::thread::Threads;
use vm_io::{Gate, Shelf, Sink};

/// Does what the words after the program's name ask for, over the shelf's files, and prints its
/// line. No file, line or status depends on the seed, from which the counts of `check` and `make` are
/// hashed, or on the number of pieces that `check` is told.
///
/// Each status other than `SinkFault` and `Memory` is the one that the words and the files come to,
/// or says that a read or a write failed, and its line was printed. `SinkFault` says that the line
/// was not taken whole, behind work that was done. At `Memory` nothing was printed, and no call of
/// the shelf had failed, or one read, or one write.
///
/// A shelf that does not tell its files may hold any: status and line are then what the words come
/// to with some bytes for each file that was read, no more than are read of it. All else holds of it
/// as of others: words of no command leave it untouched, and its counts of faults rise exactly where
/// a status says so, behind a line that was not printed, or at `Memory`.
#[tactic(auto, using(cmd_kit::proofs::PrintingLemmas::serves_steps))]
pub fn serve<R: Threads + Sync, F: Shelf, K: Sink, G: Gate>(
    rt: &R,
    alloc: Global,
    seed: Seed,
    words: &[Vec<u8>],
    shelf: &mut F,
    out: &mut K,
    gate: &G,
) -> Status
    ensures { Serves (texts words.now) result (F.state shelf.old) (F.state shelf.new)
        (K.state out.old) (K.state out.new) }
{
    let outcome = obey(rt, alloc, seed, words, shelf, gate);
    print(alloc, out, outcome)
}
