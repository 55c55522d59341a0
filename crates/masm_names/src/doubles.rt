ghost use Rattle.std.specs.Prelude.{◌≡◌, IfOk};
ghost use Rattle.masm_tree.specs.Views.{source_of};
ghost use Rattle.masm_names.specs.Least.{FindsLeast};
ghost use Rattle.masm_names.specs.Names.{place_at};
ghost use Rattle.masm_names.specs.Naming.{Doubles};
ghost use Rattle.masm_names.specs.Repeats.{IsDoubled, Repeats};

use crate::exports::first_extra_export;
use crate::names::{Defined, Names};
use crate::refusal::{LinkCause, Refusal, earlier};
use masm_tree::Ast;
use std::alloc::Global;
use vm_field::Memory;

// The refusal of a definition, if its name stands at another place.
fn repeat_at<T: Defined>(names: &Names, place: usize, item: &T) -> Option<Refusal>
    ensures { FindsLeast (IsDoubled (place_at names.now) (T.name item.now) (T.at item.now) place) result }
{
    if names.place(item.name()) == Some(place) {
        return None;
    }
    Some(Refusal {
        at: item.at(),
        cause: LinkCause::Duplicate,
    })
}

// The first definition of a name that was defined before.
pub fn first_repeat<T: Defined>(alloc: Global, items: &[T]) -> Result<Option<Refusal>, Memory>
    ensures { IfOk result (λ first. FindsLeast (Repeats T.name T.at items.now) first) }
{
    let names = Names::of(alloc, items)?;
    let mut first = None;
    for (place, item) in items.iter().enumerate() {
        first = earlier(first, repeat_at(&names, place, item));
    }
    Ok(first)
}

/// The first definition of a name that was defined before, or export that is one too many.
pub fn first_double(alloc: Global, ast: &Ast) -> Result<Option<Refusal>, Memory>
    ensures { IfOk result (λ first. FindsLeast (Doubles (source_of ast.now)) first) }
{
    let constant = first_repeat(alloc, ast.consts.as_slice())?;
    let procedure = first_repeat(alloc, &ast.procs)?;
    let export = first_extra_export(&ast.procs);
    Ok(earlier(earlier(constant, procedure), export))
}
