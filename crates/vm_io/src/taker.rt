/// What takes bytes piece by piece, however they are cut.
///
/// It is seen by what may have been taken: the lists of bytes that its state is right for.
pub trait Taker {
    ghost use Rattle.std.specs.Prelude.{ℕ, List, ◌++◌};

    ghost took: { Self → List ℕ → Type 0 };

    /// Takes the next bytes.
    fn take_piece(&mut self, piece: &[u8])
        ensures taken { (before : List ℕ) → took self.old before → took self.new (before ++ piece.now) };
}
