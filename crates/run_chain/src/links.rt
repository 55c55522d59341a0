ghost use Rattle.std.specs.Prelude.{◌≡◌, ◌<◌, length, map, slice_get, Some};

use std::marker::Model;

/// The lines of a list, in order, each with its names in order: for a chain TABLE STATEMENT, for runs SOURCE INPUTS TABLE STATEMENT.
/// The names are those of the text that was read, and no copies.
#[derive(Drop)]
pub struct Links<'a> {
    pub(crate) lines: Vec<Vec<&'a str>>,
}

impl<'a> Model for Links<'a> {
    ghost use Rattle.std.specs.Prelude.{ℕ, List, map};

    ghost Value = { List (List (List ℕ)) };

    ghost view = { λ a. map (λ line. map (λ n. n.now) line.items) a.lines.items };
}

impl<'a> Links<'a> {
    /// How many lines there are.
    pub fn len(&self) -> usize
        ensures { result ≡ length self.now }
    {
        self.lines.len()
    }

    /// The names of a line, counted from 0.
    pub fn names(&self, line: usize) -> &[&'a str]
        requires { line < length self.now }
        ensures { slice_get self.now line ≡ Some (map (λ n. n.now) result.now) }
    {
        self.lines[line].as_slice()
    }
}
