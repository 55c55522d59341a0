ghost use Rattle.std.specs.Prelude.{◌≡◌};
ghost use Rattle.masm_expand.specs.Expansion.{lit};
ghost use Rattle.masm_flat.specs.Blocks as lists;
ghost use Rattle.masm_flat.specs.Views.{piece_of};

use block_tree::Tree;
use vm_field::Felt;
use vm_ops::{Item, Op};

/// What a body is flattened to: operations and blocks. Most pieces are operations without an
/// immediate, and a list of many is held at a time, so that a piece takes no more room than these
/// need and a block stands apart.
#[derive(Drop)]
pub enum Piece {
    /// An operation without an immediate.
    Plain(Op),
    /// An operation with its immediate.
    Valued(Op, Felt),
    Whole(Box<Tree>),
}

impl Piece {
    // An operation as a piece.
    pub fn of_item(item: &Item) -> Piece
        ensures { piece_of result ≡ lists.Operation item.now }
    {
        match item.imm {
            None => Piece::Plain(item.op),
            Some(imm) => Piece::Valued(item.op, imm),
        }
    }

    // What puts an element on the stack.
    pub(crate) fn literal(value: Felt) -> Piece
        ensures { piece_of result ≡ lists.Operation (lit value) }
    {
        if value == Felt::ZERO {
            Piece::Plain(Op::Pad)
        } else {
            Piece::Valued(Op::Push, value)
        }
    }
}
