ghost use Rattle.std.specs.Prelude.{◌≡◌, ◌<◌};
ghost use Rattle.chip_columns.specs.KernelColumns as columns;

use vm_field::Felt;
use vm_table::{Row, View};

/// A row of the kernel table, read by the names of its columns (docs/CONSTRAINTS.md).
pub trait KernelView: View<5> {
    /// Element 0 of the digest.
    fn d0(&self) -> Felt
        ensures is { result ≡ columns.d (Self.cells self.now) 0 }
    {
        self.cell(0)
    }

    /// Element 1 of the digest.
    fn d1(&self) -> Felt
        ensures is { result ≡ columns.d (Self.cells self.now) 1 }
    {
        self.cell(1)
    }

    /// Element 2 of the digest.
    fn d2(&self) -> Felt
        ensures is { result ≡ columns.d (Self.cells self.now) 2 }
    {
        self.cell(2)
    }

    /// Element 3 of the digest.
    fn d3(&self) -> Felt
        ensures is { result ≡ columns.d (Self.cells self.now) 3 }
    {
        self.cell(3)
    }

    /// How often the digest is asked.
    fn count(&self) -> Felt
        ensures is { result ≡ columns.count (Self.cells self.now) }
    {
        self.cell(4)
    }

    /// Element j of the digest.
    fn d(&self, j: usize) -> Felt
        requires { j < 4 }
        ensures is { result ≡ columns.d (Self.cells self.now) j }
    {
        self.cell(j)
    }
}

impl<'a> KernelView for Row<'a, 5> {}
