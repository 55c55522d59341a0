ghost use Rattle.std.specs.Prelude.{◌≡◌, ℕ, true, List, length, Some};
ghost use Rattle.std_u64.specs.declared.names.U64Procedure.{U64Procedure};
ghost use Rattle.masm_expand.specs.Packable.{ArePackable};
ghost use Rattle.vm_field.specs.Limits.{number_of_constants};
ghost use Rattle.vm_field.specs.Machine.{IsWellFormed, State};
ghost use Rattle.vm_ops.specs.Runs.{run};
ghost use Rattle.masm_link.specs.Libraries.{are_plain, first_in, operations_of};
ghost use Rattle.std_u64.specs.Libraries.{NamesMeanOperations, library_procedure, u64_library};
ghost use Rattle.std_u64.specs.Lists.{name_of_procedure, operations};
ghost use Rattle.std_u64.specs.Outcomes.{outcome};

/// The laws of the procedures. The operations of each, run from a well-formed state, trap NotU32
/// exactly where a limb is 2^32 or more, else AssertFailed exactly where a result that the procedure
/// tests is out of range. Else they leave the result in place of the two numbers, and the rest of the
/// stack and the state as they were, but for the clock, which counts the operations. Each has an
/// operation, and each of its operations can be packed into a batch.
pub fn procedure_laws()
    ensures outcomes { (constants : List ℕ) (procedure : U64Procedure) (s : State)
        → length constants ≡ number_of_constants → IsWellFormed s
        → run constants (operations procedure) s ≡ outcome procedure s }
    ensures packable { (procedure : U64Procedure) → ArePackable (operations procedure) }
{}

/// The laws of the library. It has each procedure by its name, and the list of each is the operations of which
/// `procedure_laws` speaks: so is what its name means in a source that does not define it itself. Each
/// instruction is in form and names no local.
pub fn library_laws()
    ensures has { (procedure : U64Procedure) → first_in u64_library (name_of_procedure procedure) ≡ Some (library_procedure procedure) }
    ensures lists { (procedure : U64Procedure) → operations_of (library_procedure procedure) ≡ operations procedure }
    ensures means { NamesMeanOperations }
    ensures plain { are_plain u64_library ≡ true }
{}
