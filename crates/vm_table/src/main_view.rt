ghost use Rattle.std.specs.Prelude.{◌≡◌, ℕ, ◌<◌, List};
ghost use Rattle.vm_table.specs.MainColumns as columns;

use crate::column;
use crate::view::{Row, View};
use vm_field::Felt;

/// A row of the main table, read by the names of its 65 columns (docs/CONSTRAINTS.md). A view that
/// shows cells gets all of these calls with them.
pub trait MainView: View<65> {
    /// The clock.
    fn clk(&self) -> Felt
        ensures is { result ≡ columns.clk (Self.cells self.now) }
    {
        self.cell(column::CLK)
    }

    /// The frame pointer.
    fn fmp(&self) -> Felt
        ensures is { result ≡ columns.fmp (Self.cells self.now) }
    {
        self.cell(column::FMP)
    }

    /// The context of memory.
    fn ctx(&self) -> Felt
        ensures is { result ≡ columns.ctx (Self.cells self.now) }
    {
        self.cell(column::CTX)
    }

    /// 1 inside a syscall, else 0.
    fn sys(&self) -> Felt
        ensures is { result ≡ columns.sys (Self.cells self.now) }
    {
        self.cell(column::SYS)
    }

    /// Element 0 of the digest of the function that runs.
    fn f0(&self) -> Felt
        ensures is { result ≡ columns.f (Self.cells self.now) 0 }
    {
        self.cell(column::F)
    }

    /// Element 1 of the digest of the function that runs.
    fn f1(&self) -> Felt
        ensures is { result ≡ columns.f (Self.cells self.now) 1 }
    {
        self.cell(column::F + 1)
    }

    /// Element 2 of the digest of the function that runs.
    fn f2(&self) -> Felt
        ensures is { result ≡ columns.f (Self.cells self.now) 2 }
    {
        self.cell(column::F + 2)
    }

    /// Element 3 of the digest of the function that runs.
    fn f3(&self) -> Felt
        ensures is { result ≡ columns.f (Self.cells self.now) 3 }
    {
        self.cell(column::F + 3)
    }

    /// The address of the newest block that was started and not ended.
    fn addr(&self) -> Felt
        ensures is { result ≡ columns.addr (Self.cells self.now) }
    {
        self.cell(column::ADDR)
    }

    /// Bit 0 of the operation.
    fn b0(&self) -> Felt
        ensures is { result ≡ columns.b (Self.cells self.now) 0 }
    {
        self.cell(column::B)
    }

    /// Bit 1 of the operation.
    fn b1(&self) -> Felt
        ensures is { result ≡ columns.b (Self.cells self.now) 1 }
    {
        self.cell(column::B + 1)
    }

    /// Bit 2 of the operation.
    fn b2(&self) -> Felt
        ensures is { result ≡ columns.b (Self.cells self.now) 2 }
    {
        self.cell(column::B + 2)
    }

    /// Bit 3 of the operation.
    fn b3(&self) -> Felt
        ensures is { result ≡ columns.b (Self.cells self.now) 3 }
    {
        self.cell(column::B + 3)
    }

    /// Bit 4 of the operation.
    fn b4(&self) -> Felt
        ensures is { result ≡ columns.b (Self.cells self.now) 4 }
    {
        self.cell(column::B + 4)
    }

    /// Bit 5 of the operation.
    fn b5(&self) -> Felt
        ensures is { result ≡ columns.b (Self.cells self.now) 5 }
    {
        self.cell(column::B + 5)
    }

    /// Bit 6 of the operation.
    fn b6(&self) -> Felt
        ensures is { result ≡ columns.b (Self.cells self.now) 6 }
    {
        self.cell(column::B + 6)
    }

    /// Hash element 0.
    fn h0(&self) -> Felt
        ensures is { result ≡ columns.h (Self.cells self.now) 0 }
    {
        self.cell(column::H)
    }

    /// Hash element 1.
    fn h1(&self) -> Felt
        ensures is { result ≡ columns.h (Self.cells self.now) 1 }
    {
        self.cell(column::H + 1)
    }

    /// Hash element 2.
    fn h2(&self) -> Felt
        ensures is { result ≡ columns.h (Self.cells self.now) 2 }
    {
        self.cell(column::H + 2)
    }

    /// Hash element 3.
    fn h3(&self) -> Felt
        ensures is { result ≡ columns.h (Self.cells self.now) 3 }
    {
        self.cell(column::H + 3)
    }

    /// Hash element 4.
    fn h4(&self) -> Felt
        ensures is { result ≡ columns.h (Self.cells self.now) 4 }
    {
        self.cell(column::H + 4)
    }

    /// Hash element 5.
    fn h5(&self) -> Felt
        ensures is { result ≡ columns.h (Self.cells self.now) 5 }
    {
        self.cell(column::H + 5)
    }

    /// Hash element 6.
    fn h6(&self) -> Felt
        ensures is { result ≡ columns.h (Self.cells self.now) 6 }
    {
        self.cell(column::H + 6)
    }

    /// Hash element 7.
    fn h7(&self) -> Felt
        ensures is { result ≡ columns.h (Self.cells self.now) 7 }
    {
        self.cell(column::H + 7)
    }

    /// 1 in the row of an ordinary operation, else 0.
    fn sp(&self) -> Felt
        ensures is { result ≡ columns.sp (Self.cells self.now) }
    {
        self.cell(column::SP)
    }

    /// The positions of the batch that are left.
    fn gc(&self) -> Felt
        ensures is { result ≡ columns.gc (Self.cells self.now) }
    {
        self.cell(column::GC)
    }

    /// The place in the group.
    fn ox(&self) -> Felt
        ensures is { result ≡ columns.ox (Self.cells self.now) }
    {
        self.cell(column::OX)
    }

    /// 1 where eight positions of the batch are in use.
    fn c0(&self) -> Felt
        ensures is { result ≡ columns.c (Self.cells self.now) 0 }
    {
        self.cell(column::C)
    }

    /// 1 where four are.
    fn c1(&self) -> Felt
        ensures is { result ≡ columns.c (Self.cells self.now) 1 }
    {
        self.cell(column::C + 1)
    }

    /// 1 where two are.
    fn c2(&self) -> Felt
        ensures is { result ≡ columns.c (Self.cells self.now) 2 }
    {
        self.cell(column::C + 2)
    }

    /// Cell 0 of the stack.
    fn s0(&self) -> Felt
        ensures is { result ≡ columns.s (Self.cells self.now) 0 }
    {
        self.cell(column::S)
    }

    /// Cell 1 of the stack.
    fn s1(&self) -> Felt
        ensures is { result ≡ columns.s (Self.cells self.now) 1 }
    {
        self.cell(column::S + 1)
    }

    /// Cell 2 of the stack.
    fn s2(&self) -> Felt
        ensures is { result ≡ columns.s (Self.cells self.now) 2 }
    {
        self.cell(column::S + 2)
    }

    /// Cell 3 of the stack.
    fn s3(&self) -> Felt
        ensures is { result ≡ columns.s (Self.cells self.now) 3 }
    {
        self.cell(column::S + 3)
    }

    /// Cell 4 of the stack.
    fn s4(&self) -> Felt
        ensures is { result ≡ columns.s (Self.cells self.now) 4 }
    {
        self.cell(column::S + 4)
    }

    /// Cell 5 of the stack.
    fn s5(&self) -> Felt
        ensures is { result ≡ columns.s (Self.cells self.now) 5 }
    {
        self.cell(column::S + 5)
    }

    /// Cell 6 of the stack.
    fn s6(&self) -> Felt
        ensures is { result ≡ columns.s (Self.cells self.now) 6 }
    {
        self.cell(column::S + 6)
    }

    /// Cell 7 of the stack.
    fn s7(&self) -> Felt
        ensures is { result ≡ columns.s (Self.cells self.now) 7 }
    {
        self.cell(column::S + 7)
    }

    /// Cell 8 of the stack.
    fn s8(&self) -> Felt
        ensures is { result ≡ columns.s (Self.cells self.now) 8 }
    {
        self.cell(column::S + 8)
    }

    /// Cell 9 of the stack.
    fn s9(&self) -> Felt
        ensures is { result ≡ columns.s (Self.cells self.now) 9 }
    {
        self.cell(column::S + 9)
    }

    /// Cell 10 of the stack.
    fn s10(&self) -> Felt
        ensures is { result ≡ columns.s (Self.cells self.now) 10 }
    {
        self.cell(column::S + 10)
    }

    /// Cell 11 of the stack.
    fn s11(&self) -> Felt
        ensures is { result ≡ columns.s (Self.cells self.now) 11 }
    {
        self.cell(column::S + 11)
    }

    /// Cell 12 of the stack.
    fn s12(&self) -> Felt
        ensures is { result ≡ columns.s (Self.cells self.now) 12 }
    {
        self.cell(column::S + 12)
    }

    /// Cell 13 of the stack.
    fn s13(&self) -> Felt
        ensures is { result ≡ columns.s (Self.cells self.now) 13 }
    {
        self.cell(column::S + 13)
    }

    /// Cell 14 of the stack.
    fn s14(&self) -> Felt
        ensures is { result ≡ columns.s (Self.cells self.now) 14 }
    {
        self.cell(column::S + 14)
    }

    /// Cell 15 of the stack.
    fn s15(&self) -> Felt
        ensures is { result ≡ columns.s (Self.cells self.now) 15 }
    {
        self.cell(column::S + 15)
    }

    /// The depth of the stack.
    fn depth(&self) -> Felt
        ensures is { result ≡ columns.depth (Self.cells self.now) }
    {
        self.cell(column::DEPTH)
    }

    /// The key of the newest cell below the sixteenth.
    fn key(&self) -> Felt
        ensures is { result ≡ columns.key (Self.cells self.now) }
    {
        self.cell(column::KEY)
    }

    /// The inverse of the depth less 16.
    fn inv(&self) -> Felt
        ensures is { result ≡ columns.inv (Self.cells self.now) }
    {
        self.cell(column::INV)
    }

    /// The hasher address of the batch.
    fn ha(&self) -> Felt
        ensures is { result ≡ columns.ha (Self.cells self.now) }
    {
        self.cell(column::HA)
    }

    /// The blocks that were started and not ended.
    fn lv(&self) -> Felt
        ensures is { result ≡ columns.lv (Self.cells self.now) }
    {
        self.cell(column::LV)
    }

    /// Witness 0, an element that a constraint asks for.
    fn w0(&self) -> Felt
        ensures is { result ≡ columns.w (Self.cells self.now) 0 }
    {
        self.cell(column::W)
    }

    /// Witness 1, an element that a constraint asks for.
    fn w1(&self) -> Felt
        ensures is { result ≡ columns.w (Self.cells self.now) 1 }
    {
        self.cell(column::W + 1)
    }

    /// Witness 2, an element that a constraint asks for.
    fn w2(&self) -> Felt
        ensures is { result ≡ columns.w (Self.cells self.now) 2 }
    {
        self.cell(column::W + 2)
    }

    /// Witness 3, an element that a constraint asks for.
    fn w3(&self) -> Felt
        ensures is { result ≡ columns.w (Self.cells self.now) 3 }
    {
        self.cell(column::W + 3)
    }

    /// Limb 0 of 16 bits.
    fn t0(&self) -> Felt
        ensures is { result ≡ columns.t (Self.cells self.now) 0 }
    {
        self.cell(column::T)
    }

    /// Limb 1 of 16 bits.
    fn t1(&self) -> Felt
        ensures is { result ≡ columns.t (Self.cells self.now) 1 }
    {
        self.cell(column::T + 1)
    }

    /// Limb 2 of 16 bits.
    fn t2(&self) -> Felt
        ensures is { result ≡ columns.t (Self.cells self.now) 2 }
    {
        self.cell(column::T + 2)
    }

    /// Limb 3 of 16 bits.
    fn t3(&self) -> Felt
        ensures is { result ≡ columns.t (Self.cells self.now) 3 }
    {
        self.cell(column::T + 3)
    }

    /// Limb 4 of 16 bits.
    fn t4(&self) -> Felt
        ensures is { result ≡ columns.t (Self.cells self.now) 4 }
    {
        self.cell(column::T + 4)
    }

    /// Limb 5 of 16 bits.
    fn t5(&self) -> Felt
        ensures is { result ≡ columns.t (Self.cells self.now) 5 }
    {
        self.cell(column::T + 5)
    }

    /// Limb 6 of 16 bits.
    fn t6(&self) -> Felt
        ensures is { result ≡ columns.t (Self.cells self.now) 6 }
    {
        self.cell(column::T + 6)
    }

    /// Limb 7 of 16 bits.
    fn t7(&self) -> Felt
        ensures is { result ≡ columns.t (Self.cells self.now) 7 }
    {
        self.cell(column::T + 7)
    }

    /// Limb 8 of 16 bits.
    fn t8(&self) -> Felt
        ensures is { result ≡ columns.t (Self.cells self.now) 8 }
    {
        self.cell(column::T + 8)
    }

    /// Limb 9 of 16 bits.
    fn t9(&self) -> Felt
        ensures is { result ≡ columns.t (Self.cells self.now) 9 }
    {
        self.cell(column::T + 9)
    }

    /// Element j of the digest of the function that runs.
    fn f(&self, j: usize) -> Felt
        requires { j < 4 }
        ensures is { result ≡ columns.f (Self.cells self.now) j }
    {
        self.cell(column::F + j)
    }

    /// Bit j of the operation.
    fn b(&self, j: usize) -> Felt
        requires { j < 7 }
        ensures is { result ≡ columns.b (Self.cells self.now) j }
    {
        self.cell(column::B + j)
    }

    /// Hash element j.
    fn h(&self, j: usize) -> Felt
        requires { j < 8 }
        ensures is { result ≡ columns.h (Self.cells self.now) j }
    {
        self.cell(column::H + j)
    }

    /// Flag j of the batch.
    fn c(&self, j: usize) -> Felt
        requires { j < 3 }
        ensures is { result ≡ columns.c (Self.cells self.now) j }
    {
        self.cell(column::C + j)
    }

    /// Cell j of the stack.
    fn s(&self, j: usize) -> Felt
        requires { j < 16 }
        ensures is { result ≡ columns.s (Self.cells self.now) j }
    {
        self.cell(column::S + j)
    }

    /// Witness j.
    fn w(&self, j: usize) -> Felt
        requires { j < 4 }
        ensures is { result ≡ columns.w (Self.cells self.now) j }
    {
        self.cell(column::W + j)
    }

    /// Limb j.
    fn t(&self, j: usize) -> Felt
        requires { j < 10 }
        ensures is { result ≡ columns.t (Self.cells self.now) j }
    {
        self.cell(column::T + j)
    }
}

impl<'a> MainView for Row<'a, 65> {}
