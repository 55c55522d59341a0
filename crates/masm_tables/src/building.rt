ghost use Rattle.std.specs.Prelude.{◌≡◌, ◌<◌, Option, Some, length, IfOk};
ghost use Rattle.std.specs.List.{All};
ghost use Rattle.std.specs.Option.{option_map};
ghost use Rattle.block_tree.specs.declared.tree.Tree.{Tree};
ghost use Rattle.block_tree.specs.TreeView.{tree_of};
ghost use Rattle.masm_tree.specs.declared.tree.Proc.{Proc};
ghost use Rattle.masm_flat.specs.Blocks.{as_tree, whole};
ghost use Rattle.masm_flat.specs.KnownLists.{dispatch_of};
ghost use Rattle.masm_size.specs.Sizes.{extent_of, size_view};
ghost use Rattle.masm_flat.specs.Views.{pieces_of};
ghost use Rattle.masm_tree.specs.Locals.{MainFits};
ghost use Rattle.masm_tree.specs.Views.{body_of, procedure_of};
ghost use Rattle.masm_flat.specs.Taking.{HasNoneLeft};
ghost use Rattle.masm_names.specs.Names.{place_at};
ghost use Rattle.masm_uses.specs.Plans.{main_uses};
ghost use Rattle.masm_tables.specs.Building.{AreBuilt};
ghost use Rattle.masm_tables.specs.Preparing.{Prepares};
ghost use Rattle.masm_tables.specs.Tables.{listed};

use crate::listing::Listings;
use block_tree::Tree;
use masm_flat::{KernelProc, Outside, Piece, Scope, copied_tree, list_of_procedure, tree_of_list};
use masm_names::Names;
use masm_size::{Size, extent_of};
use masm_tree::Proc;
use std::alloc::Global;
use vm_field::{Bytes, Memory};

// The export of a procedure with this list.
fn export_of(
    alloc: Global,
    procedure: &Proc,
    size: &Size,
    list: &[Piece],
) -> Result<KernelProc, Memory>
    ensures name { IfOk result (λ export. export.name ≡ procedure.now.name) }
    ensures tree { IfOk result (λ export. tree_of export.tree ≡ whole as_tree (pieces_of list.now)) }
    ensures extent { IfOk result (λ export. export.extent ≡ extent_of (size_view size.now)) }
{
    Ok(KernelProc {
        name: Bytes::copied(alloc, procedure.name.as_slice())?,
        tree: copied_tree(alloc, list)?,
        extent: extent_of(size.part()),
    })
}

/// The exports among procedures, of whose lists these are the sizes and the pieces.
pub fn exports_of(
    alloc: Global,
    procs: &[Proc],
    sizes: &[Size],
    lists: &[Vec<Piece>],
) -> Result<Vec<KernelProc>, Memory>
    requires sizes { length sizes.now ≡ length procs.now }
    requires lists { length lists.now ≡ length procs.now }
    ensures { IfOk result (λ exports. AreBuilt sizes.now lists.now procs.now exports.items) }
{
    let mut exports = Vec::new(alloc);
    for (place, procedure) in procs.iter().enumerate() {
        if procedure.exported {
            exports.push(export_of(alloc, procedure, &sizes[place], &lists[place])?)?;
        }
    }
    Ok(exports)
}

/// The tree of the body between `begin` and `end`, of which these are the places of the lists that it uses, and of those that its
/// dynexecs may run. Each list is taken by its last use, and what is left is freed before the tree is built.
pub fn main_tree(
    alloc: Global,
    names: &Names,
    outside: &Outside<'_>,
    main: &Option<Proc>,
    uses: &[usize],
    targets: &[usize],
    built: Listings,
) -> Result<Option<Tree>, Memory>
    requires fits { MainFits (option_map procedure_of main.now) }
    requires uses { uses.now ≡ main_uses (place_at names.now) (option_map procedure_of main.now) }
    requires targets { All (λ place. place < length built.table.lists.items) targets.now }
    requires none { HasNoneLeft built.table }
    ensures { IfOk result (λ tree. (dispatch : Option Tree)
        × ((p : Proc) → main.now ≡ Some p
        → Prepares (λ made. tree_of made ≡ dispatch_of built.table.lists.items targets.now) (body_of p.body.items) built.dispatch dispatch)
        × (option_map tree_of tree ≡ option_map (λ p. whole as_tree (listed names.now built dispatch outside.now.exports.now p)) main.now)) }
{
    let Some(procedure) = main else {
        return Ok(None);
    };
    let mut built = built;
    built.prepare(alloc, targets, &procedure.body)?;
    let Listings {
        table,
        digests,
        dispatch,
    } = built;
    let scope = Scope {
        names,
        outside,
        digests: digests.as_slice(),
        dispatch: &dispatch,
    };
    let mut table = table;
    table.expect(uses);
    let list = list_of_procedure(alloc, &scope, &mut table, procedure)?;
    drop(table);
    drop(dispatch);
    Ok(Some(tree_of_list(alloc, list)?))
}
