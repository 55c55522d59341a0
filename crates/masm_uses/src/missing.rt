ghost use Rattle.masm_names.specs.Among.{Among};
ghost use Rattle.masm_uses.specs.Dangling.{LeadsNowhere, Missing};
ghost use Rattle.graphs.specs.Graph.{rows_of};
ghost use Rattle.masm_names.specs.Least.{FindsLeast};

use masm_graph::{Link, Target};
use masm_names::{LinkCause, Refusal, earlier};

// The refusal of a use that leads nowhere.
fn missing(link: Link) -> Option<Refusal>
    ensures { FindsLeast (LeadsNowhere link) result }
{
    let cause = match link.target {
        Target::Unknown => LinkCause::UnknownProcedure,
        Target::NotInKernel => LinkCause::NotInKernel,
        Target::Own(_) | Target::Kernel => return None,
    };
    Some(Refusal { at: link.at, cause })
}

// The first of these uses that leads nowhere.
pub(crate) fn first_missing(row: &[Link]) -> Option<Refusal>
    ensures { FindsLeast (Missing row.now) result }
{
    let mut first = None;
    for link in row {
        first = earlier(first, missing(*link));
    }
    first
}

// The first use in these rows that leads nowhere.
pub(crate) fn first_missing_of(rows: &[Vec<Link>]) -> Option<Refusal>
    ensures { FindsLeast (Among (λ place row. Missing row) (rows_of rows.now)) result }
{
    let mut first = None;
    for row in rows {
        first = earlier(first, first_missing(row));
    }
    first
}
