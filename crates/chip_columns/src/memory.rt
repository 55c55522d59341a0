ghost use Rattle.std.specs.Prelude.{◌≡◌, ◌<◌};
ghost use Rattle.chip_columns.specs.MemoryColumns as columns;

use vm_field::Felt;
use vm_table::{Row, View};

/// A row of the memory table, read by the names of its columns (docs/CONSTRAINTS.md).
pub trait MemoryView: View<14> {
    /// 0 where the word is read, 1 where it is written, 2 where its element 0 is written.
    fn kind(&self) -> Felt
        ensures is { result ≡ columns.kind (Self.cells self.now) }
    {
        self.cell(0)
    }

    /// The context.
    fn ctx(&self) -> Felt
        ensures is { result ≡ columns.ctx (Self.cells self.now) }
    {
        self.cell(1)
    }

    /// The address.
    fn addr(&self) -> Felt
        ensures is { result ≡ columns.addr (Self.cells self.now) }
    {
        self.cell(2)
    }

    /// The clock.
    fn clk(&self) -> Felt
        ensures is { result ≡ columns.clk (Self.cells self.now) }
    {
        self.cell(3)
    }

    /// Element 0 of the word.
    fn v0(&self) -> Felt
        ensures is { result ≡ columns.v (Self.cells self.now) 0 }
    {
        self.cell(4)
    }

    /// Element 1 of the word.
    fn v1(&self) -> Felt
        ensures is { result ≡ columns.v (Self.cells self.now) 1 }
    {
        self.cell(5)
    }

    /// Element 2 of the word.
    fn v2(&self) -> Felt
        ensures is { result ≡ columns.v (Self.cells self.now) 2 }
    {
        self.cell(6)
    }

    /// Element 3 of the word.
    fn v3(&self) -> Felt
        ensures is { result ≡ columns.v (Self.cells self.now) 3 }
    {
        self.cell(7)
    }

    /// 1 where the context is a new one.
    fn n0(&self) -> Felt
        ensures is { result ≡ columns.n0 (Self.cells self.now) }
    {
        self.cell(8)
    }

    /// 1 where the address is a new one in its context.
    fn n1(&self) -> Felt
        ensures is { result ≡ columns.n1 (Self.cells self.now) }
    {
        self.cell(9)
    }

    /// The low 16 bits of what the order grows by.
    fn d0(&self) -> Felt
        ensures is { result ≡ columns.d0 (Self.cells self.now) }
    {
        self.cell(10)
    }

    /// The high ones.
    fn d1(&self) -> Felt
        ensures is { result ≡ columns.d1 (Self.cells self.now) }
    {
        self.cell(11)
    }

    /// The low 16 bits of the address.
    fn a0(&self) -> Felt
        ensures is { result ≡ columns.a0 (Self.cells self.now) }
    {
        self.cell(12)
    }

    /// The high ones.
    fn a1(&self) -> Felt
        ensures is { result ≡ columns.a1 (Self.cells self.now) }
    {
        self.cell(13)
    }

    /// Element j of the word.
    fn v(&self, j: usize) -> Felt
        requires { j < 4 }
        ensures is { result ≡ columns.v (Self.cells self.now) j }
    {
        self.cell(4 + j)
    }
}

impl<'a> MemoryView for Row<'a, 14> {}
