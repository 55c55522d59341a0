ghost use Rattle.std.specs.Prelude.{◌≡◌, ◌≤◌, [], length, IfOk};
ghost use Rattle.vm_field.specs.Limits.{most_source_bytes};
ghost use Rattle.workloads.specs.Workloads.{most_turns, source_text, squares};

use decimal_text::append_number;
use std::alloc::Global;
use vm_field::{Bytes, Felt, Felts, Memory};
use vm_state::Inputs;

/// The most turns of a workload.
pub const MOST_TURNS: u32 = 1_000;

// The source up to its number of turns.
const TEXT_BEFORE: &[u8] = b"proc.bump
  push.1 u32wrapping_add
end
begin
  push.0
  push.";

// The source behind it.
const TEXT_BEHIND: &[u8] = b"
  dup.0 neq.0
  while.true
    dup.0 movup.2 u32wrapping_add
    adv_push.1 u32checked_xor
    call.bump
    dup.0 is_odd
    if.true
      push.1 u32checked_xor
    else
      push.2 u32checked_xor
    end
    dup.0 mem_store.7
    padw padw padw hperm dropw dropw dropw
    swap sub.1
    dup.0 neq.0
  end
  drop
end
";

/// A source, and the inputs of its run.
#[derive(Drop)]
pub struct Workload {
    pub source: Bytes,
    pub inputs: Inputs,
}

/// The workload of so many turns: its source, an empty stack, and as advice the squares of the numbers from 1 to that of the turns.
///
/// # Errors
///
/// `Memory` where the system gave none for the source or the advice.
#[tactic(auto, using(crate::proofs::TextLemmas::short_source))]
pub fn make(alloc: Global, turns: u32) -> Result<Workload, Memory>
    requires some { 1 ≤ turns }
    requires few { turns ≤ most_turns }
    ensures source { IfOk result (λ made. made.source ≡ source_text turns) }
    ensures short { IfOk result (λ made. length made.source ≤ most_source_bytes) }
    ensures stack { IfOk result (λ made. made.inputs.stack ≡ []) }
    ensures advice { IfOk result (λ made. made.inputs.advice ≡ squares turns) }
{
    let source = source_of(alloc, turns)?;
    let advice = advice_of(alloc, turns)?;
    let inputs = Inputs::new(Felts::new(alloc), advice);
    Ok(Workload { source, inputs })
}

// The source, with the number of turns in it.
fn source_of(alloc: Global, turns: u32) -> Result<Bytes, Memory>
    requires { turns ≤ most_turns }
    ensures { IfOk result (λ text. text ≡ source_text turns) }
{
    let mut text = Bytes::copied(alloc, TEXT_BEFORE)?;
    append_number(&mut text, u64::from(turns))?;
    text.append(TEXT_BEHIND)?;
    Ok(text)
}

// The squares of the numbers from 1 to that of the turns.
#[tactic(auto, using(crate::proofs::TextLemmas::squares_count))]
fn advice_of(alloc: Global, turns: u32) -> Result<Felts, Memory>
    requires { turns ≤ most_turns }
    ensures squares { IfOk result (λ advice. advice ≡ squares turns) }
    ensures count { IfOk result (λ advice. length advice ≡ turns) }
{
    let mut advice = Felts::new(alloc);
    for turn in 0..turns {
        let number = turn + 1;
        advice.push(Felt::from_u32(number * number))?;
    }
    Ok(advice)
}
