ghost use Rattle.std.specs.Prelude.{◌≡◌, ◌≤◌};
ghost use Rattle.vm_field.specs.Limits.{most_cycles};
ghost use Rattle.vm_state.specs.Views.{state_of};
ghost use Rattle.tree_hash.specs.Nodes.{IsHashed, node_tree};
ghost use Rattle.machine_cycles.specs.Settings.{constants_in};
ghost use Rattle.processor.specs.Ended.{CameTo, Ends};
ghost use Rattle.processor.specs.Parts.{execution_in};

use crate::blocks::block;
use crate::progress::Progress;
use block_tree::Program;
use machine_cycles::{Events, Runner, Setting, Stop};
use perm_memo::Permutations;
use rpo_hash::Params;
use std::alloc::Global;
use tree_hash::{Node, hashed};
use vm_field::Word;
use vm_state::{Aside, Inputs, State};

/// What a run leaves at its end, or where its limit cuts it off.
#[derive(Drop)]
pub(crate) struct Ended {
    pub progress: Progress,
    /// The digest of the program's tree.
    pub digest: Word,
    /// Those of the permutations computed for it that are kept.
    pub permutations: Permutations,
}

/// Runs a program from its inputs until it ends, traps or is cut off.
pub(crate) fn run_within(
    alloc: Global,
    params: &Params,
    program: &Program,
    inputs: &Inputs,
    limit: u32,
) -> Result<Ended, Stop>
    requires limit { limit ≤ most_cycles }
    ensures { Ends result params.now program.now inputs.now limit }
{
    let permutations = Permutations::new(alloc, params);
    let (node, permutations) = hashed(alloc, permutations, &program.tree)?;
    let setting = Setting {
        alloc,
        params,
        kernel: program.kernel.as_slice(),
        limit,
    };
    let mut runner = Runner {
        state: State::start(alloc, inputs)?,
        hidden: Aside::none(alloc),
        log: Events::new(alloc),
        permutations,
    };
    let is_done = ends(&mut runner, &setting, &node)?;
    Ok(Ended {
        progress: Progress {
            state: runner.state,
            events: runner.log,
            is_done,
        },
        digest: node.digest(),
        permutations: runner.permutations,
    })
}

// Whether the run of a block came to its end; the limit may have cut it off.
fn ends(runner: &mut Runner, setting: &Setting, node: &Node) -> Result<bool, Stop>
    requires memo { runner.old.permutations ≡ constants_in setting.now }
    requires hashed { IsHashed (constants_in setting.now) node.now }
    ensures came { CameTo setting.now (execution_in setting.now (node_tree node.now) (state_of runner.old.state)) runner.old.log result runner.new }
    ensures same { runner.new.permutations ≡ runner.old.permutations }
{
    match block(runner, setting, node) {
        Ok(()) => Ok(true),
        Err(Stop::OutOfCycles) => Ok(false),
        Err(Stop::Trap { clock, cause }) => Err(Stop::Trap { clock, cause }),
        Err(Stop::Memory) => Err(Stop::Memory),
    }
}
