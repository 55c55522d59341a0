ghost use Rattle.std.specs.Prelude.{◌≡◌, ◌<◌};
ghost use Rattle.chip_columns.specs.HasherColumns as columns;

use vm_field::Felt;
use vm_table::{Row, View};

/// A row of the hasher table, read by the names of its columns (docs/CONSTRAINTS.md).
pub trait HasherView: View<15> {
    /// 1 where the permutation is one of HPERM, 0 where it is of a hash.
    fn mode(&self) -> Felt
        ensures is { result ≡ columns.mode (Self.cells self.now) }
    {
        self.cell(0)
    }

    /// 1 where the hash began in an earlier permutation.
    fn cont(&self) -> Felt
        ensures is { result ≡ columns.cont (Self.cells self.now) }
    {
        self.cell(1)
    }

    /// 1 in the last row of a permutation that the hash goes on behind.
    fn more(&self) -> Felt
        ensures is { result ≡ columns.more (Self.cells self.now) }
    {
        self.cell(2)
    }

    /// Element 0 of the state.
    fn x0(&self) -> Felt
        ensures is { result ≡ columns.x (Self.cells self.now) 0 }
    {
        self.cell(3)
    }

    /// Element 1 of the state.
    fn x1(&self) -> Felt
        ensures is { result ≡ columns.x (Self.cells self.now) 1 }
    {
        self.cell(4)
    }

    /// Element 2 of the state.
    fn x2(&self) -> Felt
        ensures is { result ≡ columns.x (Self.cells self.now) 2 }
    {
        self.cell(5)
    }

    /// Element 3 of the state.
    fn x3(&self) -> Felt
        ensures is { result ≡ columns.x (Self.cells self.now) 3 }
    {
        self.cell(6)
    }

    /// Element 4 of the state.
    fn x4(&self) -> Felt
        ensures is { result ≡ columns.x (Self.cells self.now) 4 }
    {
        self.cell(7)
    }

    /// Element 5 of the state.
    fn x5(&self) -> Felt
        ensures is { result ≡ columns.x (Self.cells self.now) 5 }
    {
        self.cell(8)
    }

    /// Element 6 of the state.
    fn x6(&self) -> Felt
        ensures is { result ≡ columns.x (Self.cells self.now) 6 }
    {
        self.cell(9)
    }

    /// Element 7 of the state.
    fn x7(&self) -> Felt
        ensures is { result ≡ columns.x (Self.cells self.now) 7 }
    {
        self.cell(10)
    }

    /// Element 8 of the state.
    fn x8(&self) -> Felt
        ensures is { result ≡ columns.x (Self.cells self.now) 8 }
    {
        self.cell(11)
    }

    /// Element 9 of the state.
    fn x9(&self) -> Felt
        ensures is { result ≡ columns.x (Self.cells self.now) 9 }
    {
        self.cell(12)
    }

    /// Element 10 of the state.
    fn x10(&self) -> Felt
        ensures is { result ≡ columns.x (Self.cells self.now) 10 }
    {
        self.cell(13)
    }

    /// Element 11 of the state.
    fn x11(&self) -> Felt
        ensures is { result ≡ columns.x (Self.cells self.now) 11 }
    {
        self.cell(14)
    }

    /// Element j of the state.
    fn x(&self, j: usize) -> Felt
        requires { j < 12 }
        ensures is { result ≡ columns.x (Self.cells self.now) j }
    {
        self.cell(3 + j)
    }
}

impl<'a> HasherView for Row<'a, 15> {}
