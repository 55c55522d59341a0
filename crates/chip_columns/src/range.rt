ghost use Rattle.std.specs.Prelude.{◌≡◌};
ghost use Rattle.chip_columns.specs.RangeColumns as columns;

use vm_field::Felt;
use vm_table::{Row, View};

/// A row of the range table, read by the names of its columns (docs/CONSTRAINTS.md).
pub trait RangeView: View<2> {
    /// How often the value counts.
    fn count(&self) -> Felt
        ensures is { result ≡ columns.count (Self.cells self.now) }
    {
        self.cell(0)
    }

    /// The value.
    fn v(&self) -> Felt
        ensures is { result ≡ columns.v (Self.cells self.now) }
    {
        self.cell(1)
    }
}

impl<'a> RangeView for Row<'a, 2> {}
