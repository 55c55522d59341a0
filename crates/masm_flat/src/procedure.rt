ghost use Rattle.std.specs.Prelude.{◌≡◌, ◌<◌, ◌≤◌, [], ◌∷◌, ◌++◌, IfOk, OnOk};
ghost use Rattle.vm_field.specs.Field.{prime, felt_neg};
ghost use Rattle.vm_ops.specs.Items.{plain_item};
ghost use Rattle.vm_ops.specs.declared.op.Op.TheVariants.{FmpUpdate};
ghost use Rattle.masm_expand.specs.Expansion.{lit};
ghost use Rattle.masm_tree.specs.Views.{body_of};
ghost use Rattle.masm_flat.specs.Blocks as lists;
ghost use Rattle.masm_flat.specs.Blocks.{as_tree};
ghost use Rattle.masm_flat.specs.Flattening.{flat_with};
ghost use Rattle.masm_tree.specs.Locals.{HasLocals};
ghost use Rattle.masm_flat.specs.Taking.{ComesTo};
ghost use Rattle.masm_names.specs.Uses.{uses_of};
ghost use Rattle.masm_flat.specs.Lists.{with_locals};
ghost use Rattle.masm_flat.specs.Views.{pieces_of};

use crate::appending::add_items;
use crate::flattening::flatten;
use crate::known::Scope;
use crate::piece::Piece;
use crate::table::Table;
use masm_tree::Proc;
use std::alloc::Global;
use vm_field::{Felt, Memory};
use vm_ops::{Item, Op};

// The frame pointer moves up by this.
fn add_move(by: Felt, out: &mut Vec<Piece>) -> Result<(), Memory>
    requires { 0 < by }
    ensures { OnOk result (pieces_of out.new.items
        ≡ pieces_of out.old.items ++ lists.Operation (lit by) ∷ lists.Operation (plain_item FmpUpdate) ∷ []) }
{
    add_items(&[Item::push(by), Item::plain(Op::FmpUpdate)], out)
}

/// The list of a procedure (docs/ASSEMBLY.md, "Blocks"): where it has locals, the frame pointer
/// goes up before its body, and down behind it. The lists of the procedures that it uses are given.
pub fn list_of_procedure(
    alloc: Global,
    scope: &Scope,
    table: &mut Table,
    proc: &Proc,
) -> Result<Vec<Piece>, Memory>
    requires { HasLocals proc.now.locals (body_of proc.now.body.items) }
    ensures { IfOk result (λ list. ComesTo scope.now (uses_of (body_of proc.now.body.items))
        (λ known. with_locals proc.now.locals (flat_with as_tree known proc.now.locals (body_of proc.now.body.items)))
        table.old table.new (pieces_of list.items)) }
{
    let mut list = Vec::new(alloc);
    if proc.locals == 0 {
        flatten(alloc, scope, table, 0, &proc.body, &mut list)?;
        return Ok(list);
    }
    let size = Felt::reduced(u128::from(proc.locals));
    add_move(size, &mut list)?;
    flatten(alloc, scope, table, proc.locals, &proc.body, &mut list)?;
    add_move(size.neg(), &mut list)?;
    Ok(list)
}
