ghost use Rattle.std.specs.Prelude.{◌≡◌};
ghost use Rattle.chip_columns.specs.BitwiseColumns as columns;

use vm_field::Felt;
use vm_table::{Row, View};

/// A row of the bitwise table, read by the names of its columns (docs/CONSTRAINTS.md).
pub trait BitwiseView: View<12> {
    /// 1 for the exclusive or, 0 for the and.
    fn op(&self) -> Felt
        ensures is { result ≡ columns.op (Self.cells self.now) }
    {
        self.cell(0)
    }

    /// The bits of the first operand so far.
    fn a(&self) -> Felt
        ensures is { result ≡ columns.a (Self.cells self.now) }
    {
        self.cell(1)
    }

    /// The bits of the second operand so far.
    fn b(&self) -> Felt
        ensures is { result ≡ columns.b (Self.cells self.now) }
    {
        self.cell(2)
    }

    /// Bit 0 of the row's four of the first operand.
    fn a0(&self) -> Felt
        ensures is { result ≡ columns.a0 (Self.cells self.now) }
    {
        self.cell(3)
    }

    /// Bit 1 of the row's four of the first operand.
    fn a1(&self) -> Felt
        ensures is { result ≡ columns.a1 (Self.cells self.now) }
    {
        self.cell(4)
    }

    /// Bit 2 of the row's four of the first operand.
    fn a2(&self) -> Felt
        ensures is { result ≡ columns.a2 (Self.cells self.now) }
    {
        self.cell(5)
    }

    /// Bit 3 of the row's four of the first operand.
    fn a3(&self) -> Felt
        ensures is { result ≡ columns.a3 (Self.cells self.now) }
    {
        self.cell(6)
    }

    /// Bit 0 of the row's four of the second operand.
    fn b0(&self) -> Felt
        ensures is { result ≡ columns.b0 (Self.cells self.now) }
    {
        self.cell(7)
    }

    /// Bit 1 of the row's four of the second operand.
    fn b1(&self) -> Felt
        ensures is { result ≡ columns.b1 (Self.cells self.now) }
    {
        self.cell(8)
    }

    /// Bit 2 of the row's four of the second operand.
    fn b2(&self) -> Felt
        ensures is { result ≡ columns.b2 (Self.cells self.now) }
    {
        self.cell(9)
    }

    /// Bit 3 of the row's four of the second operand.
    fn b3(&self) -> Felt
        ensures is { result ≡ columns.b3 (Self.cells self.now) }
    {
        self.cell(10)
    }

    /// The bits of the result so far.
    fn z(&self) -> Felt
        ensures is { result ≡ columns.z (Self.cells self.now) }
    {
        self.cell(11)
    }
}

impl<'a> BitwiseView for Row<'a, 12> {}
