ghost use Rattle.std.specs.Prelude.{◌≡◌, ◌≢◌, ℕ, ◌<◌, true, List, Vec, Some, None, length, map, slice_get, IfOk, OnOk};
ghost use Rattle.std.specs.List.{All, Contains};
ghost use Rattle.std.specs.Global.{Global};
ghost use Rattle.masm_flat.specs.declared.piece.Piece.{Piece};
ghost use Rattle.block_tree.specs.Trees.{tree_digest};
ghost use Rattle.block_tree.specs.TreeView.{tree_of};
ghost use Rattle.masm_flat.specs.Blocks.{as_tree, whole};
ghost use Rattle.masm_flat.specs.Flattening.{flat_with};
ghost use Rattle.masm_flat.specs.KnownLists.{dispatch_of, lists_known};
ghost use Rattle.masm_flat.specs.Lists as lists;
ghost use Rattle.masm_flat.specs.Lists.{with_locals};
ghost use Rattle.masm_flat.specs.Views.{pieces_of};
ghost use Rattle.masm_tree.specs.Locals.{HasLocals, SourceFits};
ghost use Rattle.masm_tree.specs.Views.{body_of, source_of};
ghost use Rattle.masm_names.specs.Names.{place_at};
ghost use Rattle.masm_names.specs.Naming.{IsClosed};
ghost use Rattle.masm_flat.specs.Taking.{HasNoneLeft};
ghost use Rattle.masm_uses.specs.Plans.{EndsInFull, IsNoneOrAll, IsPlan};
ghost use Rattle.masm_names.specs.UsedPlaces.{places_used};
ghost use Rattle.masm_names.specs.Uses.{first_place, target_names, uses_of};
ghost use Rattle.masm_tables.specs.Kernels.{AreExports, names_in};
ghost use Rattle.masm_tables.specs.Preparing.{Prepares};
ghost use Rattle.masm_tables.specs.Putting.{Puts};
ghost use Rattle.masm_tables.specs.Tables.{AreLists, AreDigests, IsDispatched, listed};

use block_tree::Tree;
use masm_flat::{
    Outside, Piece, Scope, Table, add_copies, dispatch_tree, has_dynexec, list_of_procedure,
    tree_of_list,
};
use masm_names::Names;
use masm_tree::{Ast, Proc, Stmt};
use masm_uses::Step;
use std::alloc::{AllocError, Global};
use std::mem;
use tree_hash::Digests;
use vm_field::{Memory, Word};

// A list, as it is kept while others are built. One that took in others may be taken in too, and
// keeps its room, so that no list is moved at each of the procedures that take it on.
fn kept(list: Vec<Piece>, step: &Step) -> Vec<Piece>
    ensures { result.items ≡ list.items }
{
    let mut list = list;
    if step.ended.is_empty() {
        list.shrink_to_fit();
    }
    list
}

// The list of a procedure, where the table has the lists, and the scope the digests, that it needs.
// Lists that end with the step are taken.
fn list_of_step(
    alloc: Global,
    scope: &Scope<'_>,
    procedure: &Proc,
    step: &Step,
    table: &mut Table,
) -> Result<Vec<Piece>, Memory>
    requires locals { HasLocals procedure.now.locals (body_of procedure.now.body.items) }
    requires none { HasNoneLeft table.old }
    requires ended { IsNoneOrAll step.now.ended.items
        (places_used (place_at scope.now.names.now) (uses_of (body_of procedure.now.body.items))) }
    ensures list { IfOk result (λ list. pieces_of list.items ≡ with_locals procedure.now.locals
        (flat_with as_tree (lists_known scope.now.names.now table.old.lists.items scope.now.digests.now scope.now.dispatch.now
        scope.now.outside.now.exports.now)
        procedure.now.locals (body_of procedure.now.body.items))) }
    ensures others { IfOk result (λ list. (place : ℕ) → ¬ (Contains step.now.ended.items place)
        → slice_get table.new.lists.items place ≡ slice_get table.old.lists.items place) }
    ensures none { IfOk result (λ list. HasNoneLeft table.new) }
    ensures count { IfOk result (λ list. length table.new.lists.items ≡ length table.old.lists.items) }
{
    table.expect(&step.ended);
    let list = list_of_procedure(alloc, scope, table, procedure)?;
    Ok(list)
}

// The list of which a digest is made: a copy where it is kept, and else the list itself.
fn hashed_list(alloc: Global, list: &mut Vec<Piece>, kept: bool) -> Result<Vec<Piece>, Memory>
    ensures list { IfOk result (λ hashed. pieces_of hashed.items ≡ pieces_of list.old.items) }
    ensures kept { kept ≡ true → list.new.items ≡ list.old.items }
{
    if !kept {
        return Ok(mem::replace(list, Vec::new(alloc)));
    }
    let mut copy = Vec::new(alloc);
    add_copies(alloc, list, &mut copy)?;
    Ok(copy)
}

// Puts the digest of the tree of a list at its place, where later steps or the end need it.
fn put_digest(
    alloc: Global,
    step: &Step,
    list: &mut Vec<Piece>,
    digests: &mut Digests,
    known: &mut Vec<Word>,
) -> Result<(), Memory>
    requires { step.now.place < length known.old.items }
    ensures digest { OnOk result (Puts step.now.referred step.now.place
        (λ digest. digest ≡ tree_digest digests.old.permutations (whole as_tree (pieces_of list.old.items))) (λ q. Unit {0})
        known.old.items known.new.items) }
    ensures kept { OnOk result (step.now.kept ≡ true → list.new.items ≡ list.old.items) }
    ensures permutations { digests.new.permutations ≡ digests.old.permutations }
{
    if !step.referred {
        return Ok(());
    }
    let hashed = hashed_list(alloc, list, step.kept)?;
    let tree = tree_of_list(alloc, hashed)?;
    let digest = digests.of_tree(alloc, &tree)?;
    known[step.place] = digest;
    Ok(())
}

// Puts a list at its place, where later steps or the end need it.
fn put_list(step: &Step, list: Vec<Piece>, table: &mut Table)
    requires place { step.now.place < length table.old.lists.items }
    requires none { HasNoneLeft table.old }
    ensures list { Puts step.now.kept step.now.place (λ put. put.items ≡ list.items) (λ q. Unit {0}) table.old.lists.items table.new.lists.items }
    ensures none { HasNoneLeft table.new }
{
    if step.kept {
        table.lists[step.place] = kept(list, step);
    }
}

/// What is kept of procedures, by their places.
#[derive(Drop)]
pub struct Listings {
    /// The lists that are needed.
    pub table: Table,
    /// The digests of the trees that procrefs ask for; others are zeros.
    pub digests: Vec<Word>,
    /// The tree of a dynexec, once a body has one.
    pub dispatch: Option<Tree>,
}

impl Listings {
    // Nothing is kept of so many procedures.
    fn new(alloc: Global, count: usize) -> Result<Listings, AllocError>
        ensures lists { IfOk result (λ built. length built.table.lists.items ≡ count) }
        ensures digests { IfOk result (λ built. length built.digests.items ≡ count) }
        ensures none { IfOk result (λ built. HasNoneLeft built.table) }
        ensures dispatch { IfOk result (λ built. built.dispatch ≡ None) }
    {
        Ok(Listings {
            table: Table::new(alloc, count)?,
            digests: vec![in alloc; Word::ZERO; count]?,
            dispatch: None,
        })
    }

    // Makes the tree of a dynexec, where the body has one and it is not made yet. The table has the
    // lists of these targets.
    pub(crate) fn prepare(
        &mut self,
        alloc: Global,
        targets: &[usize],
        body: &[Stmt],
    ) -> Result<(), Memory>
        requires { All (λ place. place < length self.old.table.lists.items) targets.now }
        ensures table { self.new.table ≡ self.old.table }
        ensures digests { self.new.digests ≡ self.old.digests }
        ensures dispatch { OnOk result (Prepares (λ made. tree_of made ≡ dispatch_of self.old.table.lists.items targets.now)
            (body_of body.now) self.old.dispatch self.new.dispatch) }
    {
        if self.dispatch.is_some() {
            return Ok(());
        }
        if !has_dynexec(body) {
            return Ok(());
        }
        let tree = dispatch_tree(alloc, &self.table.lists, targets)?;
        self.dispatch = Some(tree);
        Ok(())
    }

    // Builds the list of a procedure, and keeps of it what later steps or the end need.
    fn add_step(
        &mut self,
        alloc: Global,
        names: &Names,
        outside: &Outside<'_>,
        digests: &mut Digests,
        procedure: &Proc,
        step: &Step,
    ) -> Result<(), Memory>
        requires lists { step.now.place < length self.old.table.lists.items }
        requires digests { step.now.place < length self.old.digests.items }
        requires locals { HasLocals procedure.now.locals (body_of procedure.now.body.items) }
        requires none { HasNoneLeft self.old.table }
        requires ended { IsNoneOrAll step.now.ended.items
            (places_used (place_at names.now) (uses_of (body_of procedure.now.body.items))) }
        ensures list { OnOk result (Puts step.now.kept step.now.place
            (λ list. pieces_of list.items ≡ listed names.now self.old self.old.dispatch outside.now.exports.now procedure.now)
            (λ q. ¬ (Contains step.now.ended.items q)) self.old.table.lists.items self.new.table.lists.items) }
        ensures digest { OnOk result (Puts step.now.referred step.now.place
            (λ digest. digest ≡ tree_digest digests.old.permutations
            (whole as_tree (listed names.now self.old self.old.dispatch outside.now.exports.now procedure.now)))
            (λ q. Unit {0}) self.old.digests.items self.new.digests.items) }
        ensures none { OnOk result (HasNoneLeft self.new.table) }
        ensures dispatch { self.new.dispatch ≡ self.old.dispatch }
        ensures permutations { digests.new.permutations ≡ digests.old.permutations }
    {
        let scope = Scope {
            names,
            outside,
            digests: self.digests.as_slice(),
            dispatch: &self.dispatch,
        };
        let mut list = list_of_step(alloc, &scope, procedure, step, &mut self.table)?;
        put_digest(alloc, step, &mut list, digests, &mut self.digests)?;
        put_list(step, list, &mut self.table);
        Ok(())
    }
}

/// The lists of the procedures that are exported, used between `begin` and `end` or run by dynexecs,
/// and the digests of those that procrefs between `begin` and `end` name, by their places. Of the
/// others only what these reach is built, and each list is taken by its last use. Dynexecs may run the
/// procedures at these targets.
pub fn lists_of(
    alloc: Global,
    ast: &Ast,
    names: &Names,
    outside: &Outside<'_>,
    steps: &[Step],
    targets: &[usize],
    digests: &mut Digests,
) -> Result<Listings, Memory>
    requires names { (name : List ℕ) → place_at names.now name ≡ first_place (source_of ast.now).procs name }
    requires fits { SourceFits (source_of ast.now) }
    requires closed { IsClosed (source_of ast.now) (names_in outside.now.exports.now) }
    requires steps { IsPlan (source_of ast.now) steps.now }
    requires ended { All (EndsInFull (place_at names.now) (source_of ast.now).procs) steps.now }
    requires targets { map Some targets.now ≡ map (first_place (source_of ast.now).procs) (target_names (source_of ast.now)) }
    ensures count { IfOk result (λ built. length built.table.lists.items ≡ length (source_of ast.now).procs) }
    ensures lists { IfOk result (λ built. (out : lists.Outside) → out.constants ≡ digests.old.permutations → AreExports out.exports outside.now.exports.now
        → AreLists (source_of ast.now) out built.table.lists.items) }
    ensures digests { IfOk result (λ built. (out : lists.Outside) → out.constants ≡ digests.old.permutations → AreExports out.exports outside.now.exports.now
        → AreDigests (source_of ast.now) out built.digests.items) }
    ensures dispatch { IfOk result (λ built. (out : lists.Outside) → out.constants ≡ digests.old.permutations → AreExports out.exports outside.now.exports.now
        → IsDispatched (source_of ast.now) out built.dispatch) }
    ensures none { IfOk result (λ built. HasNoneLeft built.table) }
    ensures permutations { digests.new.permutations ≡ digests.old.permutations }
{
    let mut built = Listings::new(alloc, ast.procs.len())?;
    for k in (0..steps.len()).rev() {
        let step = &steps[k];
        let procedure = &ast.procs[step.place];
        built.prepare(alloc, targets, &procedure.body)?;
        built.add_step(alloc, names, outside, digests, procedure, step)?;
    }
    Ok(built)
}
