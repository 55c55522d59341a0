ghost use Rattle.std.specs.Prelude.{◌≡◌, true, false, ◌∷◌, [], ◌++◌, map, IfOk, OnOk};
ghost use Rattle.masm_tree.specs.Trees.{Empty};
ghost use Rattle.masm_tree.specs.Views.{stmt_view, body_of};
ghost use Rattle.graphs.specs.Graph.{rows_of};
ghost use Rattle.masm_graph.specs.Links.{own_target, kernel_target, link_of, links_in, main_links_in};
ghost use Rattle.masm_names.specs.Names.{place_at};
ghost use Rattle.masm_names.specs.Uses.{uses_of};

use masm_names::Names;
use masm_tree::{Position, Proc, Stmt};
use std::alloc::Global;
use vm_field::Memory;

/// Where a use leads.
#[derive(Clone, Copy, Debug, PartialEq, Eq)]
pub enum Target {
    /// To the source's procedure at this place.
    Own(usize),
    /// To a procedure of the kernel.
    Kernel,
    /// Nowhere: the source has no such procedure.
    Unknown,
    /// Nowhere: the kernel exports no such procedure.
    NotInKernel,
}

/// A use of a procedure.
#[derive(Clone, Copy, Debug, PartialEq, Eq)]
pub struct Link {
    pub at: Position,
    pub target: Target,
    /// Whether it is a procref, which asks for the digest and runs nothing.
    pub refers: bool,
}

fn own_target(names: &Names, name: &[u8]) -> Target
    ensures { result ≡ own_target (place_at names.now name.now) }
{
    match names.place(name) {
        Some(place) => Target::Own(place),
        None => Target::Unknown,
    }
}

fn kernel_target(kernel: &Names, name: &[u8]) -> Target
    ensures { result ≡ kernel_target (place_at kernel.now name.now) }
{
    match kernel.place(name) {
        Some(_) => Target::Kernel,
        None => Target::NotInKernel,
    }
}

fn add_link(out: &mut Vec<Link>, link: Link) -> Result<(), Memory>
    ensures { OnOk result (out.new.items ≡ out.old.items ++ link ∷ []) }
{
    out.push(link)?;
    Ok(())
}

impl Link {
    // An exec, call or syscall.
    fn used(at: Position, target: Target) -> Link
        ensures { result ≡ record { at = at; target = target; refers = false } }
    {
        Link {
            at,
            target,
            refers: false,
        }
    }

    // A procref.
    fn reference(at: Position, target: Target) -> Link
        ensures { result ≡ record { at = at; target = target; refers = true } }
    {
        Link {
            at,
            target,
            refers: true,
        }
    }
}

#[cycle(linking)]
#[tactic(auto, using(crate::proofs::UseLemmas::views))]
fn add_statement(
    out: &mut Vec<Link>,
    names: &Names,
    kernel: &Names,
    stmt: &Stmt,
) -> Result<(), Memory>
    ensures { OnOk result (out.new.items
        ≡ out.old.items ++ map (link_of (place_at names.now) (place_at kernel.now))
        (uses_of (stmt_view stmt.now Empty))) }
{
    match stmt {
        Stmt::Instr(_, _) => Ok(()),
        Stmt::If(_, first, second) => {
            add_body(out, names, kernel, first)?;
            add_body(out, names, kernel, second)?;
            Ok(())
        }
        Stmt::While(_, turn) => add_body(out, names, kernel, turn),
        Stmt::Repeat(_, _, turn) => add_body(out, names, kernel, turn),
        Stmt::Exec(at, name) => add_link(out, Link::used(*at, own_target(names, name.as_slice()))),
        Stmt::Call(at, name) => add_link(out, Link::used(*at, own_target(names, name.as_slice()))),
        Stmt::Syscall(at, name) => {
            add_link(out, Link::used(*at, kernel_target(kernel, name.as_slice())))
        }
        Stmt::ProcRef(at, name) => {
            add_link(
                out,
                Link::reference(*at, own_target(names, name.as_slice())),
            )
        }
        Stmt::DynExec(_) => Ok(()),
    }
}

#[cycle(linking)]
fn add_body(out: &mut Vec<Link>, names: &Names, kernel: &Names, body: &[Stmt]) -> Result<(), Memory>
    ensures { OnOk result (out.new.items ≡ out.old.items ++ map (link_of (place_at names.now) (place_at kernel.now)) (uses_of (body_of body.now))) }
{
    for stmt in body {
        add_statement(out, names, kernel, stmt)?;
    }
    Ok(())
}

// The uses in a body, in order.
fn links_of(
    alloc: Global,
    names: &Names,
    kernel: &Names,
    body: &[Stmt],
) -> Result<Vec<Link>, Memory>
    ensures { IfOk result (λ links. links.items ≡ map (link_of (place_at names.now) (place_at kernel.now)) (uses_of (body_of body.now))) }
{
    let mut links = Vec::new(alloc);
    add_body(&mut links, names, kernel, body)?;
    Ok(links)
}

/// The uses in the body of each procedure.
pub fn all_links(
    alloc: Global,
    names: &Names,
    kernel: &Names,
    procs: &[Proc],
) -> Result<Vec<Vec<Link>>, Memory>
    ensures { IfOk result (λ rows. rows_of rows.items ≡ map (links_in (place_at names.now) (place_at kernel.now)) procs.now) }
{
    let mut rows = Vec::new(alloc);
    for procedure in procs {
        rows.push(links_of(alloc, names, kernel, &procedure.body)?)?;
    }
    Ok(rows)
}

/// The uses between `begin` and `end`.
pub fn main_links(
    alloc: Global,
    names: &Names,
    kernel: &Names,
    main: &Option<Proc>,
) -> Result<Vec<Link>, Memory>
    ensures { IfOk result (λ row. row.items ≡ main_links_in (place_at names.now) (place_at kernel.now) main.now) }
{
    match main {
        Some(procedure) => links_of(alloc, names, kernel, &procedure.body),
        None => Ok(Vec::new(alloc)),
    }
}
