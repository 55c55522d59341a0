use arrayvec::ArrayVec;

/// Room for a piece, which takes no memory of an allocator.
pub type Piece = ArrayVec<u8, 65_536>;

/// Bytes that are given piece by piece, so that no more than a piece of them need be in memory.
///
/// They are seen as the list of the bytes that are still to come.
pub trait Pieces {
    ghost use Rattle.std.specs.Prelude.{◌≡◌, ℕ, List, [], ◌++◌};

    ghost rest: { Self → List ℕ };

    /// Puts the next bytes into the room, in place of what it held. None come exactly where none are left.
    fn next_piece(&mut self, room: &mut Piece)
        ensures given { rest self.old ≡ room.new.items ++ rest self.new }
        ensures end { room.new.items ≡ [] → rest self.old ≡ [] };
}
