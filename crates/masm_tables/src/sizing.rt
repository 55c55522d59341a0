ghost use Rattle.std.specs.Prelude.{◌≡◌, ℕ, ◌<◌, List, Some, length, map, slice_set, IfOk, OnOk};
ghost use Rattle.masm_size.specs.declared.shape.Size.{Size};
ghost use Rattle.masm_size.specs.KnownSizes.{dispatch_extent, sizes_known};
ghost use Rattle.masm_flat.specs.Lists as lists;
ghost use Rattle.masm_size.specs.Sizes.{size_view, procedure_size};
ghost use Rattle.masm_tree.specs.Locals.{HasLocals, SourceFits};
ghost use Rattle.masm_tree.specs.Views.{body_of, source_of};
ghost use Rattle.masm_names.specs.Names.{place_at};
ghost use Rattle.masm_names.specs.Naming.{IsClosed};
ghost use Rattle.masm_uses.specs.UseOrders.{IsUseOrder};
ghost use Rattle.masm_names.specs.Uses.{first_place, target_names};
ghost use Rattle.masm_tables.specs.Kernels.{IsOutside, names_in};
ghost use Rattle.masm_tables.specs.Preparing.{Prepares};
ghost use Rattle.masm_tables.specs.Tables.{AreSizes};

use masm_flat::{Extent, Outside, has_dynexec};
use masm_names::Names;
use masm_size::{Size, Sizes, dispatch_extent, size_of_procedure};
use masm_tree::{Ast, Proc, Stmt};
use std::alloc::{AllocError, Global};
use vm_field::Memory;

fn empty_sizes(alloc: Global, count: usize) -> Result<Vec<Size>, AllocError>
    ensures { IfOk result (λ sizes. length sizes.items ≡ count) }
{
    let mut sizes = Vec::new(alloc);
    for _ in 0..count {
        sizes.push(Size::nothing(alloc))?;
    }
    Ok(sizes)
}

// The extent of a dynexec's block where there is nothing that it may run.
const NO_TARGETS: Extent = Extent {
    operations: 1,
    height: 1,
};

// The extent of a dynexec's block, once a body has one: all that it may run is in the table then.
fn dispatch_for(
    known: Option<Extent>,
    body: &[Stmt],
    sizes: &[Size],
    targets: &[usize],
) -> Option<Extent>
    ensures { Prepares (λ extent. extent ≡ dispatch_extent sizes.now targets.now) (body_of body.now) known result }
{
    if known.is_some() {
        return known;
    }
    if !has_dynexec(body) {
        return known;
    }
    Some(dispatch_extent(sizes, targets))
}

// Puts the size of a procedure's list into the table, which has those of the procedures that it
// uses.
fn add_size(
    alloc: Global,
    names: &Names,
    outside: &Outside<'_>,
    procedure: &Proc,
    place: usize,
    dispatch: Extent,
    sizes: &mut Vec<Size>,
) -> Result<(), Memory>
    requires place { place < length sizes.old.items }
    requires locals { HasLocals procedure.now.locals (body_of procedure.now.body.items) }
    ensures { OnOk result ((size : Size) × (sizes.new.items ≡ slice_set sizes.old.items place size)
        × (size_view size ≡ procedure_size (sizes_known names.now sizes.old.items dispatch outside.now.exports.now) procedure.now.locals
        (body_of procedure.now.body.items))) }
{
    let known = Sizes {
        names,
        sizes: sizes.as_slice(),
        dispatch,
        outside,
    };
    let size = size_of_procedure(alloc, &known, procedure)?;
    sizes[place] = size;
    Ok(())
}

/// The sizes of the procedures' lists, by their places. In the order each procedure stands behind
/// those that it uses, and behind these targets where it has a dynexec.
pub fn sizes_of(
    alloc: Global,
    ast: &Ast,
    names: &Names,
    outside: &Outside<'_>,
    order: &[usize],
    targets: &[usize],
) -> Result<Vec<Size>, Memory>
    requires names { (name : List ℕ) → place_at names.now name ≡ first_place (source_of ast.now).procs name }
    requires fits { SourceFits (source_of ast.now) }
    requires closed { IsClosed (source_of ast.now) (names_in outside.now.exports.now) }
    requires order { IsUseOrder (source_of ast.now) order.now }
    requires targets { map Some targets.now ≡ map (first_place (source_of ast.now).procs) (target_names (source_of ast.now)) }
    ensures count { IfOk result (λ sizes. length sizes.items ≡ length (source_of ast.now).procs) }
    ensures sizes { IfOk result (λ sizes. (out : lists.Outside) → IsOutside outside.now.exports.now out
        → AreSizes (source_of ast.now) out order.now sizes.items) }
{
    let mut sizes = empty_sizes(alloc, ast.procs.len())?;
    let mut dispatch = None;
    for place in order {
        let procedure = &ast.procs[*place];
        dispatch = dispatch_for(dispatch, &procedure.body, &sizes, targets);
        let extent = dispatch.unwrap_or(NO_TARGETS);
        add_size(alloc, names, outside, procedure, *place, extent, &mut sizes)?;
    }
    Ok(sizes)
}
