//! Buses in words (docs/CONSTRAINTS.md, "Buses").
ghost use Rattle.std.specs.Prelude.{◌≡◌, ◌++◌, OnOk};
ghost use Rattle.show_constraints.specs.BusWords.{bus_words, bus_words_line};

use buses::Bus;
use vm_field::{Bytes, Memory};

/// Adds what a bus is for, and what a false run could do without it.
///
/// # Errors
///
/// `Memory` where the system gave none for the longer text.
pub fn append_bus(text: &mut Bytes, bus: Bus) -> Result<(), Memory>
    ensures { OnOk result (text.new ≡ text.old ++ bus_words_line bus) }
{
    text.append(bus_words(bus).as_bytes())?;
    text.append(b"\n")
}

fn bus_words(bus: Bus) -> &'static str
    ensures { result.now ≡ bus_words bus }
{
    match bus {
        Bus::Blocks => {
            "bus blocks must be even: each END closes the block that was started, returns to \
             its parent, and a call gives back what it set aside; without it a false run \
             could end a block twice, or one that was never started, return to another \
             parent, and bring back any context, frame, depth and cells below the sixteenth \
             behind a call"
        }
        Bus::Children => {
            "bus children must be even: the block that ran is the one that its parent's hash \
             names, or, behind DYN, the digest on top of the stack, first child before \
             second; the outermost one has the statement's digest; without it a false run \
             could run any block in place of a child, run a join's first child alone or \
             twice, and show a tree of another digest than the statement's"
        }
        Bus::Loops => {
            "bus loops must be even: each turn runs the loop's own body; without it a false \
             run could run another body at a later turn of a loop than at its first one"
        }
        Bus::Groups => {
            "bus groups must be even: groups and immediates are the positions of the batch, \
             in order, each once; without it a false run could run groups behind the first \
             one, and push immediates, that are not the batch's"
        }
        Bus::Overflow => {
            "bus overflow must be even: cells below the sixteenth come back as they went; \
             without it a false run could bring in any cell from below the sixteenth, and \
             end with other outputs there"
        }
        Bus::Hasher => {
            "bus hasher must be even: a block's digest is the hash of what its start shows; \
             without it a false run could show a batch or children that the block's digest \
             does not come from, and leave any state at HPERM"
        }
        Bus::Bitwise => {
            "bus bitwise must be even: the results of bitwise operations; without it a false \
             run could leave any element at U32AND and U32XOR, and run them on operands of \
             more than 32 bits"
        }
        Bus::Memory => {
            "bus memory must be even: words are what was written last; without it a false \
             run could read any word"
        }
        Bus::Range => {
            "bus range must be even: numbers of 16 bits; no more than 1,024 blocks nest; \
             without it a false run could take any element for a limb, so that words and \
             addresses have no bound and memory may stand in any order, and nest more than \
             1,024 blocks"
        }
        Bus::Kernel => {
            "bus kernel must be even: a syscall goes to a digest of the statement's kernel; \
             without it a false run could let a syscall go to any procedure"
        }
    }
}
