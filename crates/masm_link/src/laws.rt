ghost use Rattle.masm_link.specs.Laws.{AssembledTrees, OneProgram, OneRefusal};
ghost use Rattle.masm_link.specs.LibraryLaws.{EmptyLibrary, LibrariesAreBehind};

use crate::library::Library;

/// The tree of an assembled program has no opaque block, at most 524,288 operations before packing
/// adds any, and at most 1,024 blocks on a path.
pub fn assembled_trees()
    ensures { AssembledTrees }
{}

/// A source and a kernel that are assembled to a program are assembled to no other one and are not
/// refused. Of the answers of `assemble_with` there is one for each, unless memory is refused.
#[tactic(auto, using(crate::proofs::OneAnswer::one_program))]
pub fn one_program()
    ensures { OneProgram }
{}

/// A source and a kernel that are refused have one refusal: two that `assemble_with` may answer, neither
/// of them the want of memory, are equal.
#[tactic(auto, using(crate::proofs::OneAnswer::one_refusal))]
pub fn one_refusal()
    ensures { OneRefusal }
{}

/// What a library's procedures are to a source. A name means the source's own procedure where it defines
/// the name, and else the library's, whose list is the operations of its instructions. UnknownProcedure
/// stands exactly where neither has the name. A library's procedure uses no other and has no dynexec, so
/// that no other cause of a use stands in one. A library without procedures changes nothing.
pub fn library_laws()
    ensures behind { LibrariesAreBehind }
    ensures empty { EmptyLibrary }
{}

fn crosses<T: Send + Sync>() {}

/// Libraries may be sent to other threads and read by several.
pub fn types_cross() {
    crosses::<Library>();
}
