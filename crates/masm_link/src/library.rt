ghost use Rattle.std.specs.Prelude.{◌≡◌, ◌↔◌, ℕ, ◌<◌, true, false, [], ◌∷◌, ◌++◌, map, length, Some, IsTrue, IfOk, OnOk, OnErr, slice_get};
ghost use Rattle.std.specs.List.{list_all};
ghost use Rattle.masm_tree.specs.Locals.{SourceFits};
ghost use Rattle.masm_tree.specs.Views.{body_of, procedure_of, source_of};
ghost use Rattle.masm_link.specs.Libraries.{are_plain, defines, has_name, is_plain, plain_body, procedure_in, with_library};

use indexmap::IndexMap;
use masm_instr::{Instr, Numbers};
use masm_tree::{Ast, Position, Proc, Stmt};
use std::alloc::{AllocError, Global};
use std::marker::Model;
use vm_field::{Bytes, Memory};

// No token of a source spells a library's procedure.
const NOWHERE: Position = Position { line: 0, column: 0 };

/// A library (docs/ASSEMBLY.md): procedures that a source may use though it does not define them. No two
/// have one name. Each is of instructions alone, none of which names a local.
#[derive(Drop)]
pub struct Library {
    // The instructions of each, by its name.
    procedures: IndexMap<Vec<u8>, Vec<Instr>>,
}

impl Model for Library {
    ghost use Rattle.std.specs.Prelude.{◌≡◌, List, true};
    ghost use Rattle.masm_link.specs.Libraries.{LibraryProcedure, are_plain, library_of};

    ghost Value = { List LibraryProcedure };

    ghost view = { λ a. library_of a.procedures.entries };

    ghost invariant = { λ a. are_plain (library_of a.procedures.entries) ≡ true };
}

// An instruction again.
fn copied(alloc: Global, instr: &Instr) -> Result<Instr, AllocError>
    ensures { IfOk result (λ copy. copy ≡ instr.now) }
{
    let numbers = instr.numbers();
    let mut copy = Numbers::with_capacity(alloc, numbers.len())?;
    for number in numbers {
        copy.push(*number)?;
    }
    Ok(Instr::new(instr.name(), copy))
}

// A body of these instructions.
fn body(alloc: Global, instructions: &[Instr]) -> Result<Vec<Stmt>, AllocError>
    ensures { IfOk result (λ stmts. body_of stmts.items ≡ plain_body instructions.now) }
{
    let mut stmts = Vec::with_capacity(alloc, instructions.len())?;
    for instr in instructions {
        stmts.push(Stmt::Instr(NOWHERE, copied(alloc, instr)?))?;
    }
    Ok(stmts)
}

impl Library {
    /// The library without procedures. It allocates nothing.
    pub fn new(alloc: Global) -> Library
        ensures empty { result ≡ [] }
    {
        Library {
            procedures: IndexMap::new(alloc),
        }
    }

    /// Adds a procedure at the end. At `Memory` the library is as before.
    pub fn add(
        &mut self,
        alloc: Global,
        name: &[u8],
        instructions: Vec<Instr>,
    ) -> Result<(), Memory>
        requires new { has_name self.old name.now ≡ false }
        requires plain { list_all is_plain instructions.items ≡ true }
        ensures ok { OnOk result (self.new ≡ self.old ++ record { name = name.now; instructions = instructions.items } ∷ []) }
        ensures err { OnErr result (self.new ≡ self.old) }
    {
        let key = Vec::from_slice(alloc, name)?;
        self.procedures.insert(key, instructions)?;
        Ok(())
    }

    /// Whether a procedure has the name.
    pub fn contains(&self, name: &[u8]) -> bool
        ensures { result ≡ has_name self.now name.now }
    {
        self.procedures.contains_key(name)
    }

    /// How many procedures there are.
    pub fn len(&self) -> usize
        ensures count { result ≡ length self.now }
        ensures plain { are_plain self.now ≡ true }
    {
        self.procedures.len()
    }

    /// Whether there is none.
    pub fn is_empty(&self) -> bool
        ensures none { IsTrue result ↔ (self.now ≡ []) }
    {
        self.procedures.is_empty()
    }

    // The place of the procedure of a name.
    fn place(&self, name: &[u8]) -> Option<usize>
        ensures { (place : ℕ) → (result ≡ Some place) ↔ (slice_get (map (λ p. p.name) self.now) place ≡ Some name.now) }
    {
        self.procedures.get_index_of(name)
    }

    // The procedure at a place, as one of a source.
    fn procedure(&self, alloc: Global, place: usize) -> Result<Proc, Memory>
        requires { place < length self.now }
        ensures { IfOk result (λ p. slice_get (map procedure_in self.now) place ≡ Some (procedure_of p)) }
    {
        let (name, instructions) = self.procedures.get_index(place).unwrap();
        Ok(Proc {
            name: Bytes::copied(alloc, name)?,
            locals: 0,
            exported: false,
            body: body(alloc, instructions)?,
            line: NOWHERE.line,
            column: NOWHERE.column,
        })
    }

    // Which of the procedures have names that these define.
    fn hidden(&self, alloc: Global, procs: &[Proc]) -> Result<Vec<bool>, Memory>
        ensures marks { IfOk result (λ hidden. hidden.items ≡ map (λ p. defines (map procedure_of procs.now) p.name) self.now) }
        ensures plain { are_plain self.now ≡ true }
    {
        let mut hidden = vec![in alloc; false; self.len()]?;
        for procedure in procs {
            if let Some(place) = self.place(procedure.name.as_slice()) {
                hidden[place] = true;
            }
        }
        Ok(hidden)
    }
}

/// A source with the library's procedures behind its own, but for those whose names it defines.
pub fn with_library(alloc: Global, library: &Library, source: Ast) -> Result<Ast, Memory>
    ensures whole { IfOk result (λ whole. source_of whole ≡ with_library library.now (source_of source)) }
    ensures main { IfOk result (λ whole. whole.main ≡ source.main) }
    ensures fits { SourceFits (source_of source) → IfOk result (λ whole. SourceFits (source_of whole)) }
{
    if library.is_empty() {
        return Ok(source);
    }
    let hidden = library.hidden(alloc, &source.procs)?;
    let mut whole = source;
    for (place, is_hidden) in hidden.iter().enumerate() {
        if !*is_hidden {
            whole.procs.push(library.procedure(alloc, place)?)?;
        }
    }
    Ok(whole)
}
