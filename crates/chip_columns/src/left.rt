ghost use Rattle.std.specs.Prelude.{◌≡◌};
ghost use Rattle.chip_columns.specs.LeftColumns as columns;

use vm_field::Felt;
use vm_table::{Row, View};

/// A row of the left table, read by the names of its columns (docs/CONSTRAINTS.md).
pub trait LeftView: View<1> {
    /// The key of a cell below the sixteenth at the end.
    fn key(&self) -> Felt
        ensures is { result ≡ columns.key (Self.cells self.now) }
    {
        self.cell(0)
    }
}

impl<'a> LeftView for Row<'a, 1> {}
