ghost use Rattle.cmd_words.specs.Words.{texts};
ghost use Rattle.show_app.specs.Laws.{Shows, WritesNothing};

use crate::showing::show;
use checker::Seed;
use cmd_kit::{Status, print};
use std::alloc::Global;
use std::thread::Threads;
use vm_io::{Gate, Shelf, Sink};

/// Tells what the words after the program's name ask for, over the shelf's files, and prints it. No file is written.
///
/// Each status other than `SinkFault` and `Memory` is the one that the words and the files come to, or says that a read failed, and
/// its lines were printed. `SinkFault` says that they were not taken whole. At `Memory` nothing was printed, and no call of the shelf
/// had failed, or one read. No line and no status depends on the seed, from which counts of tuples are hashed. A shelf that does not
/// tell its files may hold any.
#[tactic(auto, using(cmd_kit::proofs::PrintingLemmas::serves_steps, crate::proofs::QuietLemmas::writes_nothing))]
pub fn serve_show<R: Threads + Sync, F: Shelf, K: Sink, G: Gate>(
    rt: &R,
    alloc: Global,
    seed: Seed,
    words: &[Vec<u8>],
    shelf: &mut F,
    out: &mut K,
    gate: &G,
) -> Status
    ensures shows { Shows (texts words.now) result (F.state shelf.old) (F.state shelf.new) (K.state out.old) (K.state out.new) }
    ensures writes { WritesNothing (F.state shelf.old) (F.state shelf.new) }
{
    let outcome = show(rt, alloc, seed, words, shelf, gate);
    print(alloc, out, outcome)
}
