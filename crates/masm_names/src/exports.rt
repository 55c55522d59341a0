ghost use Rattle.masm_names.specs.Extras.{IsExtra, Extras};
ghost use Rattle.masm_names.specs.Least.{FindsLeast};

use crate::names::Defined;
use crate::refusal::{LinkCause, Refusal, earlier};
use masm_tree::Proc;
use vm_field::MOST_KERNEL;

// The refusal of a procedure behind so many exports.
fn extra_export(exports: usize, procedure: &Proc) -> Option<Refusal>
    ensures { FindsLeast (IsExtra exports procedure.now) result }
{
    if !procedure.exported || exports != MOST_KERNEL {
        return None;
    }
    Some(Refusal {
        at: procedure.at(),
        cause: LinkCause::TooManyExports,
    })
}

// The first export that is one too many.
pub(crate) fn first_extra_export(procs: &[Proc]) -> Option<Refusal>
    ensures { FindsLeast (Extras procs.now) result }
{
    let mut exports: usize = 0;
    let mut first = None;
    for procedure in procs {
        first = earlier(first, extra_export(exports, procedure));
        if procedure.exported {
            exports += 1;
        }
    }
    first
}
