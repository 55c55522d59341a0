use crate::make;
use std::test::Fail;
use vm_field::Felt;

// The source of one turn.
const ONE_TURN: &str = "proc.bump
  push.1 u32wrapping_add
end
begin
  push.0
  push.1
  dup.0 neq.0
  while.true
    dup.0 movup.2 u32wrapping_add
    adv_push.1 u32checked_xor
    call.bump
    dup.0 is_odd
    if.true
      push.1 u32checked_xor
    else
      push.2 u32checked_xor
    end
    dup.0 mem_store.7
    padw padw padw hperm dropw dropw dropw
    swap sub.1
    dup.0 neq.0
  end
  drop
end
";

#[test]
fn the_source_of_one_turn(rt: HostRuntime) -> Result<(), Fail> {
    let made = make(rt.alloc(), 1)?;
    assert_eq!(rt; made.source.as_slice(), ONE_TURN.as_bytes());
    assert!(rt; made.inputs.stack.is_empty());
    assert_eq!(rt; made.inputs.advice.as_slice(), [Felt::ONE].as_slice());
    Ok(())
}

#[test]
fn the_advice_of_three_turns(rt: HostRuntime) -> Result<(), Fail> {
    let made = make(rt.alloc(), 3)?;
    let squares = [1, 4, 9].map(Felt::from_u32);
    assert_eq!(rt; made.inputs.advice.as_slice(), squares.as_slice());
    Ok(())
}
