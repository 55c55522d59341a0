ghost use Rattle.std.specs.Prelude.{◌≡◌, ◌*◌, ◌≤◌, [], ◌∷◌, ◌++◌, length, IfOk, OnOk, OnErr};
ghost use Rattle.rpo_hash.specs.Constants.{constants_of};
ghost use Rattle.vm_field.specs.Machine.{filled_up};
ghost use Rattle.merkle_lib.specs.Paths.{Leads, first_step, parent, steps_on};
ghost use Rattle.merkle_lib.specs.Walks.{IsPath, RunsOut};

use rpo_hash::{Params, digest_of, known_constants};
use std::alloc::Global;
use std::marker::Model;
use vm_field::{Felt, Felts, Memory, Word};

/// A step of a path, from a node to the one above: the node's sibling, and on which side it lies.
#[derive(Clone, Copy, Debug, PartialEq, Eq)]
pub struct Step {
    pub sibling: Word,
    /// Whether the sibling is the left one of the two.
    pub bit: bool,
}

/// A path of a tree, from a leaf up: a list of steps.
#[derive(Drop)]
pub struct Path {
    steps: Vec<Step>,
}

impl Model for Path {
    ghost use Rattle.std.specs.Prelude.{List};
    ghost use Rattle.merkle_lib.specs.declared.paths.Step.{Step};

    ghost Value = { List Step };

    ghost view = { λ a. a.steps.items };
}

impl Path {
    /// The path of no step. It allocates nothing.
    pub fn new(alloc: Global) -> Path
        ensures empty { result ≡ [] }
    {
        Path {
            steps: Vec::new(alloc),
        }
    }

    /// Adds a step at the upper end. At `Memory` the path is as before.
    pub fn push(&mut self, step: Step) -> Result<(), Memory>
        ensures ok { OnOk result (self.new ≡ self.old ++ step ∷ []) }
        ensures err { OnErr result (self.new ≡ self.old) }
    {
        self.steps.push(step)?;
        Ok(())
    }

    /// The steps, from the leaf up.
    pub fn as_slice(&self) -> &[Step]
        ensures items { result.now ≡ self.now }
    {
        self.steps.as_slice()
    }
}

/// The root to which a path leads from a leaf: each node is the digest of the two below it, the left
/// one first.
pub fn root_of(params: &Params, leaf: &Word, path: &Path) -> Word
    ensures { Leads (constants_of params.now) leaf.now path.now result }
{
    let steps = path.as_slice();
    let mut node = *leaf;
    for step in steps {
        node = parent(params, &node, step);
    }
    node
}

// The node above a node.
fn parent(params: &Params, node: &Word, step: &Step) -> Word
    ensures { result ≡ parent (constants_of params.now) node.now step.now }
{
    let (left, right) = if step.bit {
        (step.sibling, *node)
    } else {
        (*node, step.sibling)
    };
    let [a, b, c, d] = left.elements();
    let [e, f, g, h] = right.elements();
    digest_of(params, Felt::ZERO, &[[a, b, c, d, e, f, g, h]])
}

/// The path of a tape on which the program of this depth is done, from these inputs, and that it uses
/// up. The path leads from the leaf that lies on top of the stack at the start to the root below it.
pub fn path_of(
    alloc: Global,
    params: &Params,
    inputs: &Felts,
    tape: &Felts,
    depth: u32,
) -> Result<Path, Memory>
    requires { RunsOut (constants_of params.now) depth inputs.now tape.now }
    ensures { IfOk result (λ path. IsPath (constants_of params.now) depth (filled_up inputs.now) tape.now path) }
{
    known_constants(params);
    let _ = (inputs.len(), tape.len());
    steps_on(alloc, tape.as_slice(), depth)
}

// So many steps from the front of a tape on.
fn steps_on(alloc: Global, tape: &[Felt], depth: u32) -> Result<Path, Memory>
    requires { 5 * depth ≤ length tape.now }
    ensures { IfOk result (λ path. path ≡ steps_on depth tape.now) }
{
    let mut path = Path::new(alloc);
    let mut rest = tape;
    for _ in 0..depth {
        path.push(first_step(rest))?;
        rest = &rest[5..];
    }
    Ok(path)
}

// The step that lies in front of a tape.
fn first_step(tape: &[Felt]) -> Step
    requires { 5 ≤ length tape.now }
    ensures { result ≡ first_step tape.now }
{
    Step {
        sibling: Word([tape[0], tape[1], tape[2], tape[3]]),
        bit: tape[4] == Felt::ONE,
    }
}
