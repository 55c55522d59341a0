ghost use Rattle.std.specs.Prelude.{◌≡◌, ℕ, ◌+◌, ◌≤◌, true, List, length};
ghost use Rattle.block_tree.specs.Execution.{operations, IsCutOff};
ghost use Rattle.masm_effects.specs.HasEffect.{affected};
ghost use Rattle.masm_effects.specs.Spans.{EndsLike, TrapsOrIsDone};
ghost use Rattle.masm_instr.specs.declared.name.Name.{Name};
ghost use Rattle.masm_effects.specs.Effects.{instr_effect};
ghost use Rattle.masm_expand.specs.Expansion.{expansion};
ghost use Rattle.masm_instr.specs.Instructions.{is_in_form};
ghost use Rattle.vm_field.specs.Limits.{number_of_constants};
ghost use Rattle.vm_field.specs.Machine.{IsWellFormed, State};
ghost use Rattle.vm_ops.specs.declared.item.Item.{Item};
ghost use Rattle.vm_ops.specs.Runs.{run};

/// The laws of operations in the run of a tree. They come out as they do one after another, unless
/// the limit of cycles cuts them off; which it does not where so many cycles are left. So those of an
/// instruction trap where its effect does, and else leave what the effect leaves.
pub fn span_laws()
    ensures agree { (constants : List ℕ) (kernel : List (List ℕ)) (limit : ℕ) (items : List Item) (s : State)
        → EndsLike (operations constants kernel limit items s) (run constants items s) }
    ensures within { (constants : List ℕ) (kernel : List (List ℕ)) (limit : ℕ) (items : List Item) (s : State)
        → s.core.clock + length items ≤ limit
        → IsCutOff (operations constants kernel limit items s) → ⊥ }
    ensures effects { (constants : List ℕ) (kernel : List (List ℕ)) (limit locals : ℕ) (s : State)
        → length constants ≡ number_of_constants → IsWellFormed s → (name : Name) (numbers : List ℕ)
        → is_in_form name numbers ≡ true
        → s.core.clock + length (expansion name numbers locals) ≤ limit
        → TrapsOrIsDone (instr_effect constants name numbers locals s).traps
        (operations constants kernel limit (expansion name numbers locals) s)
        (affected (instr_effect constants name numbers locals s)
        (length (expansion name numbers locals)) s) }
{}
