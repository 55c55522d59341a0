ghost use Rattle.std.specs.Prelude.{◌≡◌, ◌<◌, ◌≤◌, length};
ghost use Rattle.masm_lex.specs.Tokens.{next, place_after};

use crate::MAX_SOURCE;

/// A place in a source, with its line and column.
#[derive(Clone, Copy, Debug, PartialEq, Eq)]
pub struct Cursor {
    /// How many bytes stand before it.
    pub index: usize,
    /// The number of its line, counted from 1.
    pub line: u32,
    /// The number of its column, counted in bytes from 1.
    pub column: u32,
}

impl Cursor {
    /// The first place of a source.
    pub const FIRST: Cursor = Cursor {
        index: 0,
        line: 1,
        column: 1,
    };

    // The place behind this byte, which stands at this place.
    pub(crate) fn next(self, byte: u8) -> Cursor
        requires index { self.index < MAX_SOURCE }
        requires line { self.line ≤ MAX_SOURCE }
        requires column { self.column ≤ MAX_SOURCE }
        ensures { result ≡ next self byte }
    {
        let index = self.index + 1;
        if byte == b'\n' {
            Cursor {
                index,
                line: self.line + 1,
                column: Cursor::FIRST.column,
            }
        } else {
            Cursor {
                index,
                line: self.line,
                column: self.column + 1,
            }
        }
    }
}

/// The place behind the last byte of a source.
pub fn end_place(source: &[u8]) -> Cursor
    requires { length source.now ≤ MAX_SOURCE }
    ensures { result ≡ place_after source.now }
{
    let mut place = Cursor::FIRST;
    for byte in source {
        place = place.next(*byte);
    }
    place
}
