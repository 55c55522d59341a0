ghost use Rattle.std.specs.Prelude.{◌≡◌, length, Some, None, MatchOption, IfOk};
ghost use Rattle.std.specs.Option.{option_map};
ghost use Rattle.masm_size.specs.KnownSizes.{dispatch_extent, size_at, sizes_known};
ghost use Rattle.masm_size.specs.Sizes.{extent_of, procedure_size};
ghost use Rattle.masm_tree.specs.Locals.{MainFits};
ghost use Rattle.masm_tree.specs.Views.{body_of, procedure_of};
ghost use Rattle.masm_names.specs.Among.{Among};
ghost use Rattle.masm_names.specs.Least.{FindsLeast};
ghost use Rattle.masm_tree.specs.Trees.{position_of};
ghost use Rattle.masm_tables.specs.Limits.{size_cause, ExceedsLimit};

use masm_flat::{Extent, Outside};
use masm_names::{Defined, LinkCause, Names, Refusal, earlier};
use masm_size::{Size, Sizes, dispatch_extent, extent_of, size_of_procedure};
use masm_tree::{Position, Proc};
use std::alloc::Global;
use vm_field::{MOST_NESTING, MOST_OPERATIONS, Memory};

fn size_cause(extent: Extent) -> Option<LinkCause>
    ensures { result ≡ size_cause extent }
{
    if extent.operations > MOST_OPERATIONS {
        return Some(LinkCause::TooManyOps);
    }
    if extent.height > MOST_NESTING {
        return Some(LinkCause::TooDeep);
    }
    None
}

// The refusal of a procedure at this place whose tree has this extent.
fn too_large(at: Position, extent: Extent) -> Option<Refusal>
    ensures { FindsLeast (ExceedsLimit at extent) result }
{
    match size_cause(extent) {
        Some(cause) => Some(Refusal { at, cause }),
        None => None,
    }
}

/// The first procedure whose tree is too large.
pub fn first_too_large(procs: &[Proc], sizes: &[Size]) -> Option<Refusal>
    requires { length sizes.now ≡ length procs.now }
    ensures { FindsLeast (Among (λ place p.
        ExceedsLimit (position_of (procedure_of p)) (extent_of (size_at sizes.now (Some place)))) procs.now) result }
{
    let mut first = None;
    for (place, procedure) in procs.iter().enumerate() {
        let extent = extent_of(sizes[place].part());
        first = earlier(first, too_large(procedure.at(), extent));
    }
    first
}

/// The refusal of the body between `begin` and `end`, if its tree is too large. Its dynexecs may run
/// the procedures at these places.
pub fn main_too_large(
    alloc: Global,
    names: &Names,
    outside: &Outside<'_>,
    main: &Option<Proc>,
    sizes: &[Size],
    targets: &[usize],
) -> Result<Option<Refusal>, Memory>
    requires { MainFits (option_map procedure_of main.now) }
    ensures { IfOk result (λ first. MatchOption main.now (first ≡ None)
        (λ p. FindsLeast (ExceedsLimit (position_of (procedure_of p))
        (extent_of (procedure_size (sizes_known names.now sizes.now (dispatch_extent sizes.now targets.now) outside.now.exports.now) p.locals
        (body_of p.body.items)))) first)) }
{
    let Some(procedure) = main else {
        return Ok(None);
    };
    let known = Sizes {
        names,
        sizes,
        dispatch: dispatch_extent(sizes, targets),
        outside,
    };
    let size = size_of_procedure(alloc, &known, procedure)?;
    Ok(too_large(procedure.at(), extent_of(size.part())))
}
