ghost use Rattle.std.specs.Prelude.{◌≡◌, ◌==◌, ◌↔◌, ℕ, suc, ◌<◌, List, length, slice_index, true};
ghost use Rattle.vm_field.specs.Field.{prime};
ghost use Rattle.vm_ops.specs.Codes.{code_of};
ghost use Rattle.vm_ops.specs.declared.op.Op.{Op};
ghost use Rattle.vm_ops.specs.declared.op.Op.TheVariants as ops;
ghost use Rattle.vm_table.specs.Layout.{IsTable, row_at};
ghost use Rattle.vm_table.specs.MainColumns.{b, clk, h};
ghost use Rattle.air_kit.specs.Acceptance.{AreZero};
ghost use Rattle.air_kit.specs.Flags.{HasOp, is_left, is_op, op_of};
ghost use Rattle.air_kit.specs.MainTuples.{is_batch_op, positions, row_shifts_left};
ghost use Rattle.air_kit.specs.MainValues.{decoder_values, main_values};
ghost use Rattle.air_kit.specs.Places.{Claim, Spot};
ghost use Rattle.air_kit.specs.SpanValues.{rest_flag};
ghost use Rattle.air_kit.specs.StackValues.{stack_values};
ghost use Rattle.air_kit.specs.declared.trace.Public.{Public};
ghost use Rattle.air_kit.specs.declared.trace.Trace.{Trace};
ghost use Rattle.air_kit.specs.Traces.{HasCounts, claim_of};
ghost use Rattle.air_kit.specs.U32Values.{u32_values};
ghost use Rattle.air_kit.specs.DynValues.{dyn_values};
ghost use Rattle.facts_main.specs.Batches.{IsBatchRow, ShowsBatch, UsesHalf};
ghost use Rattle.facts_main.specs.Blocks.{IsBlockRow};
ghost use Rattle.facts_main.specs.Bounds.{IsLowClaim};
ghost use Rattle.facts_main.specs.Groups.{IsGroupRow};
ghost use Rattle.facts_main.specs.Dynamic.{IsDynRow};
ghost use Rattle.facts_main.specs.Limbs.{ShowsLimbs};
ghost use Rattle.facts_main.specs.MainRows.{MainIsZero, ShowsRows, op_in};
ghost use Rattle.facts_main.specs.RowFacts.{IsAtSpot, HasOps, ReadsAs};
ghost use Rattle.facts_main.specs.Stack.{ShowsStack, mover};
ghost use Rattle.facts_main.specs.Zero.{AllZero};

/// The law of operations: a row of elements whose entries are 0 has the operation that its bits spell, so that its flags are 1 for
/// this operation and 0 for every other one.
pub fn operation_laws()
    ensures operation { (c : Claim) (p : Spot) → ((k : ℕ) → slice_index p.cur k < prime)
        → AllZero (main_values c p) → HasOp p.cur (op_of p.cur) }
    ensures bits { (c : Claim) (p : Spot) → ((k : ℕ) → slice_index p.cur k < prime)
        → AllZero (main_values c p) → (j : ℕ) → j < 7 → b p.cur j < 2 }
{}

/// The law of batches: a row of elements whose entries are 0 and that starts a batch shows how many positions are in use, eight at
/// most. Where more than one is, one in the second half of them is not 0.
pub fn batch_laws()
    ensures room { (c : Claim) (p : Spot) → ((k : ℕ) → slice_index p.cur k < prime)
        → AllZero (main_values c p) → is_batch_op (op_of p.cur) ≡ true → IsBatchRow p.cur }
    ensures needed { (x : List ℕ) → ShowsBatch x → 1 < positions x → UsesHalf x }
{}

/// The law of the entries on operations, boundaries, blocks and spans, whose numbers are 1 to 114. Where they are 0, a row of elements
/// reads as the operation that its bits spell, and the row, the row behind it and its place are as the facts say; and they are 0
/// wherever these facts hold.
pub fn decoder_laws()
    ensures reads { (k : Claim) (p : Spot) → ((j : ℕ) → slice_index p.cur j < prime)
        → AllZero (decoder_values k p) → ReadsAs (op_of p.cur) p.cur }
    ensures shows { (k : Claim) (op : Op) (p : Spot) → IsLowClaim k → HasOps op p
        → AllZero (decoder_values k p) → IsAtSpot k op p }
    ensures zeros { (k : Claim) (op : Op) (p : Spot) → IsLowClaim k → HasOps op p → IsAtSpot k op p
        → AllZero (decoder_values k p) }
{}

/// The law of the entries on the stack, whose numbers are 115 to 139. Where they are 0, the row behind a row has the depth, the key and
/// the cells that the operation leaves, as the facts say; and they are 0 wherever these facts hold. Of the row's block, the law asks
/// what the entries before these say.
pub fn stack_laws()
    ensures shows { (op : Op) (p : Spot) → HasOps op p → IsBlockRow op p.cur → AllZero (stack_values p) → ShowsStack op p }
    ensures zeros { (op : Op) (p : Spot) → HasOps op p → IsBlockRow op p.cur → ShowsStack op p → AllZero (stack_values p) }
{}

/// The law of the entries on numbers of 32 bits, whose numbers are 140 to 147: where they are 0, operands and results are the numbers of
/// their limbs and belong together as the operation says, and they are 0 wherever these facts hold.
pub fn limb_laws()
    ensures shows { (op : Op) (p : Spot) → HasOps op p → AllZero (u32_values p) → ShowsLimbs op p }
    ensures zeros { (op : Op) (p : Spot) → HasOps op p → ShowsLimbs op p → AllZero (u32_values p) }
{}

/// The law of the entries on dynamic blocks, whose numbers are 148 to 151: where they are 0, such a block's row shows four zeros in
/// front, and they are 0 wherever it does.
pub fn dyn_laws()
    ensures shows { (op : Op) (p : Spot) → HasOps op p → AllZero (dyn_values p) → IsDynRow op p.cur }
    ensures zeros { (op : Op) (p : Spot) → HasOps op p → IsDynRow op p.cur → AllZero (dyn_values p) }
{}

/// The law of parts: all entries of the main table are 0 at a place exactly where those of each of its four parts are.
pub fn part_laws()
    ensures parts { (k : Claim) (p : Spot) → AllZero (main_values k p)
        → AllZero (decoder_values k p) × AllZero (stack_values p) × AllZero (u32_values p) × AllZero (dyn_values p) }
    ensures whole { (k : Claim) (p : Spot) → AllZero (decoder_values k p) → AllZero (stack_values p) → AllZero (u32_values p)
        → AllZero (dyn_values p) → AllZero (main_values k p) }
{}

/// The law of tables: the rows of a main table of which all entries are 0 show these facts, each row and each two rows, the first row
/// and the last one; and a table whose rows show them has entries 0.
pub fn table_laws()
    ensures shows { (k : Claim) (rows : List (List ℕ)) → IsLowClaim k → MainIsZero k rows → ShowsRows k rows }
    ensures zeros { (k : Claim) (rows : List (List ℕ)) → IsLowClaim k → IsTable 65 rows → ShowsRows k rows → MainIsZero k rows }
{}

/// What follows for a main table by itself: its clocks count the rows from 0, and HALT stands in the last row alone.
pub fn clock_laws()
    ensures clock { (k : Claim) (rows : List (List ℕ)) → ShowsRows k rows → length rows < prime
        → (i : ℕ) → i < length rows → clk (row_at rows i) ≡ i }
    ensures halt { (k : Claim) (rows : List (List ℕ)) → ShowsRows k rows
        → (i : ℕ) → i < length rows → (is_op (op_in rows i) ops.Halt ≡ true) ↔ (suc i ≡ length rows) }
{}

/// How the tests of the buses read a row: its bits spell the operation that it reads as, its flag of what is left of a group is 0
/// exactly where nothing is left, and it shifts left exactly where the operation that moves its stack does.
pub fn reading_laws()
    ensures operation { (op : Op) (x : List ℕ) → ReadsAs op x → op_of x ≡ op }
    ensures group { (op : Op) (x : List ℕ) → ReadsAs op x → IsGroupRow op x → (rest_flag x == 0) ≡ (h x 0 == code_of op) }
    ensures left { (x : List ℕ) → row_shifts_left x ≡ is_left (mover (op_of x) x) }
{}

/// The laws of traces: what stands beside the rows of a trace is in the range of elements, and a trace of which all entries are 0 has a
/// main table whose rows show the facts.
pub fn trace_laws()
    ensures claim { (public : Public) (trace : Trace) → HasCounts trace → IsTable 1 trace.left → IsLowClaim (claim_of public trace) }
    ensures rows { (public : Public) (trace : Trace) → HasCounts trace → IsTable 65 trace.main → IsTable 1 trace.left
        → AreZero (claim_of public trace) trace → ShowsRows (claim_of public trace) trace.main }
{}
