ghost use Rattle.std.specs.Prelude.{◌≡◌, ◌≤◌, length};
ghost use Rattle.vm_field.specs.Limits.{most_advice, most_inputs};
ghost use Rattle.vm_field.specs.Field.{AreElements};

use vm_field::{Felts, MOST_INPUTS};

/// What a run is given: the stack at its start, top first, and the advice that its operations may
/// take, in order.
#[derive(Drop)]
pub struct Inputs {
    pub stack: Felts,
    pub advice: Felts,
    pub ghost few: { length stack ≤ most_inputs },
    pub ghost short: { length advice ≤ most_advice },
    pub ghost cells: { AreElements stack },
    pub ghost elements: { AreElements advice },
}

impl Inputs {
    /// At most so many elements stand on the stack at the start.
    pub const MOST_STACK: usize = MOST_INPUTS;

    /// At most so many elements are on the tape.
    pub const MOST_ADVICE: usize = 1048576;

    /// The inputs of these lists.
    pub fn new(stack: Felts, advice: Felts) -> Inputs
        requires few { length stack ≤ most_inputs }
        requires short { length advice ≤ most_advice }
        ensures stack { result.stack ≡ stack }
        ensures advice { result.advice ≡ advice }
    {
        let _ = (stack.len(), advice.len());
        Inputs { stack, advice }
    }
}
