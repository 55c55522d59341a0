ghost use Rattle.std.specs.Prelude.{◌≡◌, ◌+◌, ◌≤◌, [], ◌++◌, length, reverse, true, false, IfOk, OnOk};
ghost use Rattle.block_tree.specs.TreeView.{tree_of};
ghost use Rattle.masm_expand.specs.Expansion.{expansion};
ghost use Rattle.masm_instr.specs.Instructions.{is_in_form, names_local};
ghost use Rattle.merkle_lib.specs.Paths.{tape_of, tape_of_step};
ghost use Rattle.merkle_lib.specs.Programs.{last_items, level_items, levels, start_cells, walk_items, walk_tree};

use crate::paths::{Path, Step};
use block_tree::{Exports, Program, Tree};
use masm_expand::expand;
use masm_instr::{Instr, Name, Numbers};
use op_pack::pack;
use std::alloc::Global;
use vm_field::{Felt, Felts, Memory, Word, Words};
use vm_ops::Items;
use vm_state::Inputs;

/// The program that walks a path of this depth:
/// `begin repeat.depth padw adv_loadw adv_push.1 cswapw hmerge end assert_eqw end`. It has no kernel.
pub fn program(alloc: Global, depth: u32) -> Result<Program, Memory>
    requires least { 1 ≤ depth }
    requires most { depth ≤ 64 }
    ensures tree { IfOk result (λ program. tree_of program.tree ≡ walk_tree depth) }
    ensures kernel { IfOk result (λ program. program.kernel ≡ []) }
    ensures exports { IfOk result (λ program. program.exports ≡ []) }
{
    let items = walk(alloc, depth)?;
    let batches = pack(alloc, items.as_slice())?;
    Ok(Program::new(Tree::Span(batches), Words::new(alloc), Exports::new(alloc)))
}

// The program's operations.
fn walk(alloc: Global, depth: u32) -> Result<Items, Memory>
    ensures { IfOk result (λ items. items ≡ walk_items depth) }
{
    let level = level(alloc)?;
    let mut items = Items::new(alloc);
    for _ in 0..depth {
        items.append(level.as_slice())?;
    }
    add(&mut items, alloc, Name::AssertEqw, Numbers::new(alloc))?;
    Ok(items)
}

// The operations of one level.
fn level(alloc: Global) -> Result<Items, Memory>
    ensures { IfOk result (λ items. items ≡ level_items) }
{
    let mut one = Numbers::new(alloc);
    one.push(1)?;
    let mut items = Items::new(alloc);
    add(&mut items, alloc, Name::Padw, Numbers::new(alloc))?;
    add(&mut items, alloc, Name::AdvLoadw, Numbers::new(alloc))?;
    add(&mut items, alloc, Name::AdvPush, one)?;
    add(&mut items, alloc, Name::Cswapw, Numbers::new(alloc))?;
    add(&mut items, alloc, Name::Hmerge, Numbers::new(alloc))?;
    Ok(items)
}

// Adds the operations of an instruction that names no local.
fn add(items: &mut Items, alloc: Global, name: Name, numbers: Numbers) -> Result<(), Memory>
    requires form { is_in_form name numbers ≡ true }
    requires local { names_local name ≡ false }
    ensures { OnOk result (items.new ≡ items.old ++ expansion name numbers 0) }
{
    let more = expand(alloc, &Instr::new(name, numbers), 0)?;
    items.append(more.as_slice())
}

/// What the program starts with: the leaf on top of the stack and the root below it, each with its
/// last element on top, and the path on the tape.
pub fn inputs(alloc: Global, leaf: &Word, root: &Word, path: &Path) -> Result<Inputs, Memory>
    requires { length path.now ≤ 64 }
    ensures stack { IfOk result (λ inputs. inputs.stack ≡ start_cells leaf.now root.now) }
    ensures advice { IfOk result (λ inputs. inputs.advice ≡ tape_of path.now) }
{
    let mut stack = Felts::new(alloc);
    add_cells(&mut stack, leaf)?;
    add_cells(&mut stack, root)?;
    let mut advice = Felts::new(alloc);
    for step in path.as_slice() {
        add_step(&mut advice, step)?;
    }
    Ok(Inputs::new(stack, advice))
}

// Adds a word as it lies on the stack, its last element on top.
fn add_cells(cells: &mut Felts, word: &Word) -> Result<(), Memory>
    ensures cells { OnOk result (cells.new ≡ cells.old ++ reverse word.now) }
    ensures count { OnOk result (length cells.new ≡ length cells.old + 4) }
{
    let [a, b, c, d] = word.elements();
    cells.push(d)?;
    cells.push(c)?;
    cells.push(b)?;
    cells.push(a)?;
    Ok(())
}

// Adds a step as it lies on the tape: the sibling and then the bit.
fn add_step(tape: &mut Felts, step: &Step) -> Result<(), Memory>
    ensures tape { OnOk result (tape.new ≡ tape.old ++ tape_of_step step.now) }
    ensures count { OnOk result (length tape.new ≡ length tape.old + 5) }
{
    let [a, b, c, d] = step.sibling.elements();
    tape.push(a)?;
    tape.push(b)?;
    tape.push(c)?;
    tape.push(d)?;
    tape.push(if step.bit { Felt::ONE } else { Felt::ZERO })?;
    Ok(())
}
