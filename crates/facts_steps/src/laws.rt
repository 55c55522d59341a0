ghost use Rattle.std.specs.Prelude.{◌≡◌, ℕ, suc, ◌^◌, ◌<◌, List, length, true, Ok};
ghost use Rattle.vm_field.specs.Limits.{number_of_constants};
ghost use Rattle.vm_field.specs.Machine.{IsWellFormed, State};
ghost use Rattle.vm_ops.specs.Codes.{is_ordinary_op};
ghost use Rattle.vm_ops.specs.Items.{IsOrdinaryItem};
ghost use Rattle.vm_ops.specs.Step.{step};
ghost use Rattle.vm_ops.specs.declared.item.Item.{Item};
ghost use Rattle.vm_ops.specs.declared.op.Op.{Op};
ghost use Rattle.air_kit.specs.Places.{Claim};
ghost use Rattle.air_kit.specs.RowStates.{Elsewhere, elsewhere_at};
ghost use Rattle.facts_main.specs.Limbs.{IsLimbRow, MovesLimbs};
ghost use Rattle.vm_table.specs.Layout.{row_at};
ghost use Rattle.facts_main.specs.MainRows.{ShowsPair, ShowsRow, ShowsRows, op_in};
ghost use Rattle.facts_steps.specs.Filling.{FilledBy, FillsRows, ShowsState, elsewhere_of};
ghost use Rattle.facts_steps.specs.Joined.{GoesOnBy, IsRowOf};
ghost use Rattle.facts_steps.specs.Lookups.{LooksUpLimbs, Lookups};
ghost use Rattle.facts_steps.specs.Numbers.{ShowsNumbers};
ghost use Rattle.facts_steps.specs.Showing.{IsPlace, ShowsStep};

/// The law of rows: a row of an ordinary operation and the row behind it, whose facts hold and to which the buses grant what they ask,
/// show one step of the machine. It leads from the state of the row to that of the row behind it, each with what no row shows: the
/// cells below the sixteenth, memory and the tape. So do two rows of a main table, of which the other rows say what they do not
/// show, whatever cells are below the sixteenth in the first one.
pub fn step_laws()
    ensures shows { (constants : List ℕ) (op next : Op) (x y : List ℕ) (e f : Elsewhere) → length constants ≡ number_of_constants
        → is_ordinary_op op ≡ true → IsRowOf x e → ShowsRow op x → ShowsPair op next x y → GoesOnBy op x y e f
        → Lookups constants op x y e → ShowsStep constants op x y e f }
    ensures at_place { (constants deep : List ℕ) (k : Claim) (rows : List (List ℕ)) (i : ℕ) → length constants ≡ number_of_constants
        → ShowsRows k rows → IsPlace constants deep rows i
        → ShowsStep constants (op_in rows i) (row_at rows i) (row_at rows (suc i)) (elsewhere_at deep rows i)
        (elsewhere_at deep rows (suc i)) }
{}

/// The law of numbers: where the limbs of a row have 16 bits, its operands have 32 bits, and the two words of a sum or of a product are
/// the number itself, which is below the modulus: a sum of two or of three numbers is at most two or three times 2^32 - 1. The
/// remainder of a division is below its divisor.
pub fn number_laws()
    ensures numbers { (op : Op) (x y : List ℕ) → IsLimbRow op x → MovesLimbs op x y → LooksUpLimbs op x → ShowsNumbers op x y }
{}

/// The law of fillings: where a step of an ordinary item leads from one state to another, the two rows that show these states, with the
/// cells that no state has filled in, have the facts of rows but those of their span, and ask the buses for what is so.
pub fn fill_laws()
    ensures fills { (constants : List ℕ) (item : Item) (s t : State) (x y : List ℕ) → length constants ≡ number_of_constants
        → IsOrdinaryItem item → IsWellFormed s → s.core.clock < 2 ^ 19 → length s.core.stack < 2 ^ 20
        → step constants item s ≡ Ok t → ShowsState x s → ShowsState y t → FilledBy item.op x y (elsewhere_of s)
        → FillsRows constants item x y (elsewhere_of s) (elsewhere_of t) }
{}
