ghost use Rattle.std.specs.Prelude.{◌≡◌, ℕ, ◌<◌, true, List, length, Ok, Err};
ghost use Rattle.masm_effects.specs.HasEffect.{HasEffect, TrapsFirst};
ghost use Rattle.masm_instr.specs.declared.name.Name.{Name};
ghost use Rattle.masm_effects.specs.Effects.{instr_effect};
ghost use Rattle.masm_expand.specs.Expansion.{expansion};
ghost use Rattle.masm_instr.specs.Instructions.{first, is_in_form, names_local};
ghost use Rattle.vm_field.specs.Limits.{number_of_constants};
ghost use Rattle.vm_field.specs.Machine.{IsWellFormed, State};
ghost use Rattle.vm_ops.specs.declared.cause.Cause.{Cause};
ghost use Rattle.vm_ops.specs.Runs.{run};

/// The laws of the instructions, with numbers that their forms allow and in a procedure of any count
/// of locals. The operations of each, run from a well-formed state, trap exactly where the
/// instruction's effect says so, and else leave the state that the effect leaves. That state is well
/// formed where a local that the instruction names is one of the procedure's. The cause of a trap is
/// that of the first operation that traps.
pub fn effect_laws()
    ensures effects { (constants : List ℕ) (locals : ℕ) (s : State) → length constants ≡ number_of_constants
        → IsWellFormed s → (name : Name) (numbers : List ℕ) → is_in_form name numbers ≡ true
        → HasEffect constants (expansion name numbers locals) s (instr_effect constants name numbers locals s) }
    ensures kept { (constants : List ℕ) (locals : ℕ) (s t : State) → length constants ≡ number_of_constants
        → IsWellFormed s → (name : Name) (numbers : List ℕ) → is_in_form name numbers ≡ true
        → (names_local name ≡ true → first numbers < locals)
        → run constants (expansion name numbers locals) s ≡ Ok t → IsWellFormed t }
    ensures causes { (constants : List ℕ) (locals : ℕ) (s : State) (name : Name) (numbers : List ℕ)
        (cause : Cause) → run constants (expansion name numbers locals) s ≡ Err cause
        → TrapsFirst constants (expansion name numbers locals) s cause }
{}
