ghost use Rattle.std.specs.Prelude.{◌≡◌, ◌+◌, ◌*◌, ◌^◌, ◌<◌, ◌≤◌, ◌==◌};
ghost use Rattle.pieces.specs.Cuts.{cut_at};

use pieces::cut;
use std::ops::Range;

/// Some of the pieces into which the rows of a trace are cut, one behind another.
#[derive(Clone, Copy)]
pub(crate) struct Part {
    /// How many pieces there are in all.
    pub pieces: usize,
    /// The first of these.
    pub low: usize,
    /// The one behind the last of these.
    pub high: usize,
    pub ghost most: { pieces ≤ 64 },
    pub ghost some: { low < high },
    pub ghost within: { high ≤ pieces },
}

impl Part {
    /// All of so many pieces.
    pub fn all(pieces: usize) -> Part
        requires { (1 ≤ pieces) × (pieces ≤ 64) }
        ensures pieces { result.pieces ≡ pieces }
        ensures low { result.low ≡ 0 }
        ensures high { result.high ≡ pieces }
    {
        Part {
            pieces,
            low: 0,
            high: pieces,
        }
    }

    /// Whether it is one piece alone.
    pub fn is_single(self) -> bool
        ensures { result ≡ (self.low + 1 == self.high) }
    {
        self.low + 1 == self.high
    }

    /// Its two halves. There are two where it is not one piece alone.
    pub fn halves(self) -> (Part, Part)
        requires { self.low + 1 < self.high }
        ensures pieces { (result.0.pieces ≡ self.pieces) × (result.1.pieces ≡ self.pieces) }
        ensures low { result.0.low ≡ self.low }
        ensures middle { result.0.high ≡ result.1.low }
        ensures high { result.1.high ≡ self.high }
    {
        let middle = self.low + (self.high - self.low) / 2;
        let lower = Part {
            pieces: self.pieces,
            low: self.low,
            high: middle,
        };
        let upper = Part {
            pieces: self.pieces,
            low: middle,
            high: self.high,
        };
        (lower, upper)
    }

    /// The same rows, of twice as many pieces.
    pub fn doubled(self) -> Part
        requires { self.pieces ≤ 32 }
        ensures pieces { result.pieces ≡ 2 * self.pieces }
        ensures low { result.low ≡ 2 * self.low }
        ensures high { result.high ≡ 2 * self.high }
    {
        Part {
            pieces: 2 * self.pieces,
            low: 2 * self.low,
            high: 2 * self.high,
        }
    }

    /// Which of so many rows its pieces have.
    pub fn rows(self, count: usize) -> Range<usize>
        requires { count < 2 ^ 32 }
        ensures start { result.start ≡ cut_at self.low count self.pieces }
        ensures end { result.end ≡ cut_at self.high count self.pieces }
        ensures grows { result.start ≤ result.end }
        ensures within { result.end ≤ count }
    {
        cut(self.low, count, self.pieces)..cut(self.high, count, self.pieces)
    }
}
