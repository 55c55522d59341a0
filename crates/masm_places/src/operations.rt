ghost use Rattle.std.specs.Prelude.{◌≡◌, ◌-◌, ◌<◌, ◌∷◌, [], if◌then◌else◌, IfOk};
ghost use Rattle.std.specs.Option.{option_copied};
ghost use Rattle.vm_ops.specs.Items.{plain_item};
ghost use Rattle.vm_ops.specs.declared.op.Op.TheVariants.{FmpUpdate};
ghost use Rattle.masm_expand.specs.Expansion.{lit};
ghost use Rattle.masm_places.specs.Pending.{walk_of, entry_items, exit_items};
ghost use Rattle.masm_places.specs.Silent.{lost};
ghost use Rattle.masm_places.specs.Steps.{acted, comes, is_item, is_literal, is_noop, is_op, same_immediate, same_item};

use crate::walk::Walk;
use std::alloc::Global;
use vm_field::{Felt, Memory};
use vm_ops::{Item, Items, Op, opcode};

// Moves the frame pointer up by this.
fn frame_move(alloc: Global, by: Felt) -> Result<Items, Memory>
    requires { 0 < by }
    ensures { IfOk result (λ items. items ≡ lit by ∷ plain_item FmpUpdate ∷ []) }
{
    let mut items = Items::new(alloc);
    items.push(Item::push(by))?;
    items.push(Item::plain(Op::FmpUpdate))?;
    Ok(items)
}

// The operations before the body of a procedure with so many locals.
pub(crate) fn entry_items(alloc: Global, locals: u32) -> Result<Items, Memory>
    ensures { IfOk result (λ items. items ≡ entry_items locals) }
{
    if locals == 0 {
        return Ok(Items::new(alloc));
    }
    frame_move(alloc, Felt::reduced(u128::from(locals)))
}

// The operations behind the body of a procedure with so many locals.
pub(crate) fn exit_items(alloc: Global, locals: u32) -> Result<Items, Memory>
    ensures { IfOk result (λ items. items ≡ exit_items locals) }
{
    if locals == 0 {
        return Ok(Items::new(alloc));
    }
    frame_move(alloc, Felt::reduced(u128::from(locals)).neg())
}

fn same_immediate(a: Option<Felt>, b: Option<Felt>) -> bool
    ensures { result ≡ same_immediate a b }
{
    match (a, b) {
        (None, None) => true,
        (Some(a), Some(b)) => a.value() == b.value(),
        (None, Some(_)) => false,
        (Some(_), None) => false,
    }
}

fn same_item(a: &Item, b: &Item) -> bool
    ensures { result ≡ same_item a.now b.now }
{
    opcode(a.op) == opcode(b.op) && same_immediate(a.imm, b.imm)
}

// Whether an operation is the one that is wanted.
fn is_item(wanted: Option<&Item>, item: &Item) -> bool
    ensures { result ≡ is_item (option_copied wanted.entry) item.now }
{
    match wanted {
        Some(wanted) => same_item(wanted, item),
        None => false,
    }
}

// Whether an operation puts a number on the stack.
fn is_literal(item: &Item) -> bool
    ensures { result ≡ is_literal item.now }
{
    opcode(item.op) == opcode(Op::Pad) || opcode(item.op) == opcode(Op::Push)
}

// NOOP fills a span, and is no instruction's.
pub(crate) fn is_noop(op: Op) -> bool
    ensures { result ≡ is_noop op }
{
    opcode(op) == opcode(Op::Noop)
}

// Whether an operation is the one that is wanted.
pub(crate) fn is_op(wanted: Option<Op>, op: Op) -> bool
    ensures { result ≡ is_op wanted op }
{
    match wanted {
        Some(wanted) => opcode(wanted) == opcode(op),
        None => false,
    }
}

impl<'a> Walk<'a> {
    // An operation of an instruction comes.
    fn come(&mut self, item: &Item)
        ensures { walk_of self.new ≡ comes item.now (walk_of self.old) }
    {
        if is_item(self.items.as_slice().get(self.done), item) {
            self.done += 1;
        } else {
            self.lose();
        }
    }

    // A number of a digest comes.
    fn come_literal(&mut self, item: &Item)
        requires { 0 < (walk_of self.old).literals }
        ensures { walk_of self.new ≡ (if is_literal item.now
            then record (walk_of self.old) { literals = (walk_of self.old).literals - 1 }
            else lost (walk_of self.old)) }
    {
        if is_literal(item) {
            self.literals -= 1;
        } else {
            self.lose();
        }
    }

    // An operation comes that is an instruction's.
    pub(crate) fn act(&mut self, item: &Item)
        ensures { walk_of self.new ≡ acted item.now (walk_of self.old) }
    {
        if self.literals > 0 {
            self.come_literal(item);
        } else {
            self.come(item);
        }
    }
}
