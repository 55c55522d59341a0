//! Where a number of places is cut, so that each of so many pieces of work has its part.
#![tactic(auto)]

ghost use Rattle.std.specs.Prelude.{◌≡◌, ◌<◌, ◌≤◌, ◌^◌};
ghost use Rattle.pieces.specs.Cuts.{cut_at, CutStarts, CutEnds, CutGrows};

/// Where a piece of so many places begins, and the one before it ends: the greatest number that is at most
/// the piece's share of all places.
pub fn cut(piece: usize, count: usize, pieces: usize) -> usize
    requires some { 0 < pieces }
    requires within { piece ≤ pieces }
    requires most { pieces ≤ 64 }
    requires few { count < 2 ^ 32 }
    ensures is { result ≡ cut_at piece count pieces }
    ensures below { result ≤ count }
{
    piece * count / pieces
}

/// The first piece begins at 0, the last one ends behind the last place, and cuts follow one another.
pub fn cut_laws()
    ensures starts { CutStarts }
    ensures ends { CutEnds }
    ensures grows { CutGrows }
{}
