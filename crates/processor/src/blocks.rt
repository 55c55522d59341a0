ghost use Rattle.std.specs.Prelude.{◌≡◌, ℕ, ◌+◌, ◌≤◌, List, All, IfSome, map};
ghost use Rattle.std.specs.Option.{option_map};
ghost use Rattle.block_tree.specs.Cycles as cycles;
ghost use Rattle.block_tree.specs.Execution.{at_bit};
ghost use Rattle.block_tree.specs.Trees as trees;
ghost use Rattle.block_tree.specs.Trees.{first_target};
ghost use Rattle.op_pack.specs.Reading.{reading};
ghost use Rattle.vm_ops.specs.Items.{IsOrdinaryItem};
ghost use Rattle.vm_state.specs.Views.{state_of};
ghost use Rattle.tree_hash.specs.Nodes.{AreFirst, IsHashed, digest_in, elements_of, node_tree, targets_of};
ghost use Rattle.machine_cycles.specs.Running.{Ran};
ghost use Rattle.machine_cycles.specs.Settings.{constants_in};
ghost use Rattle.processor.specs.Parts.{batches_in, digest_of, execution_in, operations_in, read_operations_in, run_option_in, turns_in};

use machine_cycles::{Mark, Runner, Setting, Stop, called_word, cycle, enter, operation, top_of};
use tree_hash::{Node, Places, ReadBatch};
use vm_field::{Felt, Word};
use vm_ops::Item;

// The run of a block.
#[cycle(blocks)]
pub(crate) fn block(runner: &mut Runner, setting: &Setting, node: &Node) -> Result<(), Stop>
    requires memo { runner.old.permutations ≡ constants_in setting.now }
    requires hashed { IsHashed (constants_in setting.now) node.now }
    ensures ran { Ran setting.now (execution_in setting.now (node_tree node.now) (state_of runner.old.state)) runner.old.log result runner.new }
    ensures same { runner.new.permutations ≡ runner.old.permutations }
{
    match node {
        Node::Opaque(_) => cycle(runner, setting, Mark::StartOpaque),
        Node::Span(digest, batches) => span(runner, setting, digest, batches.as_slice()),
        Node::Join(digest, first, second) => join(runner, setting, digest, first, second),
        Node::Split(digest, on_one, on_zero) => split(runner, setting, digest, on_one, on_zero),
        Node::Loop(digest, body) => repeated(runner, setting, digest, body),
        Node::Call(digest, callee) => call(runner, setting, digest, callee),
        Node::Syscall(digest, callee) => syscall(runner, setting, digest, callee),
        Node::Dyn(digest, places, targets) => dynamic(runner, setting, digest, places, targets),
    }
}

#[cycle(blocks)]
fn join(
    runner: &mut Runner,
    setting: &Setting,
    digest: &Word,
    first: &Node,
    second: &Node,
) -> Result<(), Stop>
    requires memo { runner.old.permutations ≡ constants_in setting.now }
    requires digest { digest.now ≡ digest_of setting.now (trees.Join (node_tree first.now) (node_tree second.now)) }
    requires first { IsHashed (constants_in setting.now) first.now }
    requires second { IsHashed (constants_in setting.now) second.now }
    ensures ran { Ran setting.now (execution_in setting.now (trees.Join (node_tree first.now) (node_tree second.now))
        (state_of runner.old.state)) runner.old.log result runner.new }
    ensures same { runner.new.permutations ≡ runner.old.permutations }
{
    cycle(
        runner,
        setting,
        Mark::StartJoin(first.digest(), second.digest()),
    )?;
    block(runner, setting, first)?;
    block(runner, setting, second)?;
    cycle(runner, setting, Mark::End(*digest))
}

#[cycle(blocks)]
fn split(
    runner: &mut Runner,
    setting: &Setting,
    digest: &Word,
    on_one: &Node,
    on_zero: &Node,
) -> Result<(), Stop>
    requires memo { runner.old.permutations ≡ constants_in setting.now }
    requires digest { digest.now ≡ digest_of setting.now (trees.Split (node_tree on_one.now) (node_tree on_zero.now)) }
    requires on_one { IsHashed (constants_in setting.now) on_one.now }
    requires on_zero { IsHashed (constants_in setting.now) on_zero.now }
    ensures ran { Ran setting.now (execution_in setting.now (trees.Split (node_tree on_one.now) (node_tree on_zero.now))
        (state_of runner.old.state)) runner.old.log result runner.new }
    ensures same { runner.new.permutations ≡ runner.old.permutations }
{
    let condition = top_of(&runner.state);
    cycle(
        runner,
        setting,
        Mark::StartSplit(on_one.digest(), on_zero.digest()),
    )?;
    branch(runner, setting, condition, on_one, on_zero)?;
    cycle(runner, setting, Mark::End(*digest))
}

// The branch that a condition picks.
#[cycle(blocks)]
fn branch(
    runner: &mut Runner,
    setting: &Setting,
    condition: Felt,
    on_one: &Node,
    on_zero: &Node,
) -> Result<(), Stop>
    requires memo { runner.old.permutations ≡ constants_in setting.now }
    requires on_one { IsHashed (constants_in setting.now) on_one.now }
    requires on_zero { IsHashed (constants_in setting.now) on_zero.now }
    ensures ran { Ran setting.now (at_bit condition (execution_in setting.now (node_tree on_zero.now))
        (execution_in setting.now (node_tree on_one.now)) (state_of runner.old.state)) runner.old.log result
        runner.new }
    ensures same { runner.new.permutations ≡ runner.old.permutations }
{
    if condition.value() == 0 {
        block(runner, setting, on_zero)
    } else {
        block(runner, setting, on_one)
    }
}

#[cycle(blocks)]
fn repeated(runner: &mut Runner, setting: &Setting, digest: &Word, body: &Node) -> Result<(), Stop>
    requires memo { runner.old.permutations ≡ constants_in setting.now }
    requires digest { digest.now ≡ digest_of setting.now (trees.Loop (node_tree body.now)) }
    requires body { IsHashed (constants_in setting.now) body.now }
    ensures ran { Ran setting.now (execution_in setting.now (trees.Loop (node_tree body.now)) (state_of runner.old.state))
        runner.old.log result runner.new }
    ensures same { runner.new.permutations ≡ runner.old.permutations }
{
    let condition = top_of(&runner.state);
    cycle(runner, setting, Mark::StartLoop(body.digest()))?;
    if condition.value() == 0 {
        cycle(runner, setting, Mark::End(*digest))
    } else {
        turns(runner, setting, digest, body)
    }
}

// The turns of a loop that was entered, until a 0 is on top behind one.
#[cycle(blocks)]
fn turns(runner: &mut Runner, setting: &Setting, digest: &Word, body: &Node) -> Result<(), Stop>
    requires memo { runner.old.permutations ≡ constants_in setting.now }
    requires body { IsHashed (constants_in setting.now) body.now }
    ensures ran { (n : ℕ) → setting.now.limit ≤ n + runner.old.state.clock
        → Ran setting.now (turns_in setting.now digest.now (node_tree body.now) n (state_of runner.old.state)) runner.old.log result runner.new }
    ensures same { runner.new.permutations ≡ runner.old.permutations }
{
    loop {
        block(runner, setting, body)?;
        if top_of(&runner.state).value() == 0 {
            return cycle(runner, setting, Mark::EndLoop(*digest));
        }
        cycle(runner, setting, Mark::Repeat(body.digest()))?;
    }
}

#[cycle(blocks)]
fn call(runner: &mut Runner, setting: &Setting, digest: &Word, callee: &Node) -> Result<(), Stop>
    requires memo { runner.old.permutations ≡ constants_in setting.now }
    requires digest { digest.now ≡ digest_of setting.now (trees.Call (node_tree callee.now)) }
    requires callee { IsHashed (constants_in setting.now) callee.now }
    ensures ran { Ran setting.now (execution_in setting.now (trees.Call (node_tree callee.now)) (state_of runner.old.state))
        runner.old.log result runner.new }
    ensures same { runner.new.permutations ≡ runner.old.permutations }
{
    let frame = enter(runner, setting, Mark::StartCall(callee.digest()))?;
    block(runner, setting, callee)?;
    cycle(runner, setting, Mark::EndCall(*digest, frame))
}

#[cycle(blocks)]
fn syscall(runner: &mut Runner, setting: &Setting, digest: &Word, callee: &Node) -> Result<(), Stop>
    requires memo { runner.old.permutations ≡ constants_in setting.now }
    requires digest { digest.now ≡ digest_of setting.now (trees.Syscall (node_tree callee.now)) }
    requires callee { IsHashed (constants_in setting.now) callee.now }
    ensures ran { Ran setting.now (execution_in setting.now (trees.Syscall (node_tree callee.now)) (state_of runner.old.state))
        runner.old.log result runner.new }
    ensures same { runner.new.permutations ≡ runner.old.permutations }
{
    let frame = enter(runner, setting, Mark::StartSyscall(callee.digest()))?;
    block(runner, setting, callee)?;
    cycle(runner, setting, Mark::EndSyscall(*digest, frame))
}

// The first target whose digest is on top of the stack.
#[cycle(blocks)]
fn dynamic(
    runner: &mut Runner,
    setting: &Setting,
    digest: &Word,
    places: &Places,
    targets: &[Node],
) -> Result<(), Stop>
    requires memo { runner.old.permutations ≡ constants_in setting.now }
    requires digest { digest.now ≡ digest_of setting.now (trees.Dyn (targets_of targets.now)) }
    requires places { AreFirst places.now (map digest_in targets.now) }
    requires targets { All (IsHashed (constants_in setting.now)) targets.now }
    ensures ran { Ran setting.now (execution_in setting.now (trees.Dyn (targets_of targets.now)) (state_of runner.old.state))
        runner.old.log result runner.new }
    ensures same { runner.new.permutations ≡ runner.old.permutations }
{
    let found = first(places, targets, &called_word(&runner.state));
    cycle(runner, setting, Mark::StartDyn(found.is_some()))?;
    chosen(runner, setting, found)?;
    cycle(runner, setting, Mark::End(*digest))
}

// The target, if there is one; where there is none, the start has trapped.
#[cycle(blocks)]
fn chosen(runner: &mut Runner, setting: &Setting, found: Option<&Node>) -> Result<(), Stop>
    requires memo { runner.old.permutations ≡ constants_in setting.now }
    requires hashed { IfSome found (λ node. IsHashed (constants_in setting.now) node.now) }
    ensures ran { Ran setting.now (run_option_in setting.now (option_map (λ node. node_tree node.now) found.entry) (state_of runner.old.state))
        runner.old.log result runner.new }
    ensures same { runner.new.permutations ≡ runner.old.permutations }
{
    match found {
        None => Ok(()),
        Some(target) => block(runner, setting, target),
    }
}

// The first of these that has this digest.
fn first<'a>(places: &Places, targets: &'a [Node], digest: &Word) -> Option<&'a Node>
    requires { AreFirst places.now (map digest_in targets.now) }
    ensures is { (constants : List ℕ) → All (IsHashed constants) targets.now
        → option_map (λ node. node_tree node.now) result ≡ first_target constants digest.now (targets_of targets.now) }
    ensures hashed { (constants : List ℕ) → All (IsHashed constants) targets.now → IfSome result (λ node. IsHashed constants node.now) }
{
    match places.place(digest) {
        Some(place) => targets.get(place),
        None => None,
    }
}

fn span(
    runner: &mut Runner,
    setting: &Setting,
    digest: &Word,
    batches: &[ReadBatch],
) -> Result<(), Stop>
    requires memo { runner.old.permutations ≡ constants_in setting.now }
    requires digest { digest.now ≡ digest_of setting.now (trees.Span (elements_of batches.now)) }
    ensures ran { Ran setting.now (execution_in setting.now (trees.Span (elements_of batches.now)) (state_of runner.old.state))
        runner.old.log result runner.new }
    ensures same { runner.new.permutations ≡ runner.old.permutations }
{
    all_batches(runner, setting, batches)?;
    cycle(runner, setting, Mark::EndSpan(*digest))
}

// The batches of a span.
fn all_batches(runner: &mut Runner, setting: &Setting, batches: &[ReadBatch]) -> Result<(), Stop>
    requires memo { runner.old.permutations ≡ constants_in setting.now }
    ensures ran { Ran setting.now (batches_in setting.now cycles.StartSpan (elements_of batches.now) (state_of runner.old.state))
        runner.old.log result runner.new }
    ensures same { runner.new.permutations ≡ runner.old.permutations }
{
    match batches.split_first() {
        None => Ok(()),
        Some((first, later)) => {
            cycle(runner, setting, Mark::StartSpan(first.shown()))?;
            batch_operations(runner, setting, first)?;
            later_batches(runner, setting, later)
        }
    }
}

// The batches behind the first.
fn later_batches(runner: &mut Runner, setting: &Setting, batches: &[ReadBatch]) -> Result<(), Stop>
    requires memo { runner.old.permutations ≡ constants_in setting.now }
    ensures ran { Ran setting.now (batches_in setting.now cycles.Respan (elements_of batches.now) (state_of runner.old.state))
        runner.old.log result runner.new }
    ensures same { runner.new.permutations ≡ runner.old.permutations }
{
    for batch in batches {
        cycle(runner, setting, Mark::Respan(batch.shown()))?;
        batch_operations(runner, setting, batch)?;
    }
    Ok(())
}

// The operations of a batch, as it is read. One that has no reading has trapped before.
fn batch_operations(runner: &mut Runner, setting: &Setting, batch: &ReadBatch) -> Result<(), Stop>
    requires memo { runner.old.permutations ≡ constants_in setting.now }
    ensures ran { Ran setting.now (read_operations_in setting.now (reading batch.now.elements) (state_of runner.old.state))
        runner.old.log result runner.new }
    ensures same { runner.new.permutations ≡ runner.old.permutations }
{
    match &batch.items {
        None => Ok(()),
        Some(items) => all_operations(runner, setting, items.as_slice()),
    }
}

// One operation after another.
fn all_operations(runner: &mut Runner, setting: &Setting, items: &[Item]) -> Result<(), Stop>
    requires memo { runner.old.permutations ≡ constants_in setting.now }
    requires ordinary { All IsOrdinaryItem items.now }
    ensures ran { Ran setting.now (operations_in setting.now items.now (state_of runner.old.state)) runner.old.log result runner.new }
    ensures same { runner.new.permutations ≡ runner.old.permutations }
{
    for item in items {
        operation(runner, setting, item)?;
    }
    Ok(())
}
