ghost use Rattle.std.specs.Prelude.{◌≡◌, ◌↔◌, IsTrue, ◌==◌};
ghost use Rattle.std.specs.List.{list_all};
ghost use Rattle.run_chain.specs.Following.{first_stack, Follows};

use vm_field::{Felt, LEAST_DEPTH};
use vm_state::Statement;

/// Whether the outputs of the first statement are the stack with which a run on the inputs of the
/// second one starts.
pub fn follows(a: &Statement, b: &Statement) -> bool
    ensures { IsTrue result ↔ Follows a.now b.now }
{
    is_first_stack(a.outputs.as_slice(), b.inputs.as_slice())
}

/// Whether these cells are the stack with which a run on these inputs starts: the inputs, and zeros
/// below them up to sixteen cells.
pub fn is_first_stack(cells: &[Felt], inputs: &[Felt]) -> bool
    ensures { IsTrue result ↔ (cells.now ≡ first_stack inputs.now) }
{
    let Some(below) = cells.strip_prefix(inputs) else {
        return false;
    };
    below.len() == LEAST_DEPTH.saturating_sub(inputs.len()) && are_zeros(below)
}

fn are_zeros(cells: &[Felt]) -> bool
    ensures { result ≡ list_all (λ x. x == 0) cells.now }
{
    cells.iter().all(|cell| *cell == Felt::ZERO)
}
