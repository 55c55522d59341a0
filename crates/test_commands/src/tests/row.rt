use crate::tests::content::Content;

/// One call of `serve`, and what it leaves.
#[derive(Clone, Copy)]
pub struct Row {
    /// The words, with a space between two of them.
    pub words: &'static [u8],

    /// The files that stand on the shelf, before and after.
    pub files: &'static [(&'static str, Content)],

    pub number: u8,
    pub printed: &'static str,
    pub fault: Fault,
}

/// What fails: the call of the shelf or the write of the sink of this number, from 1.
#[derive(Clone, Copy)]
pub enum Fault {
    Nothing,
    Call(u64),
    Write(u64),
}

/// A change of the files that a run wrote.
pub enum Change {
    /// A cell of the main table: its row, its column, the value.
    Cell(usize, usize, u64),
    /// Elements of the table file: the number of the first one, and the values.
    Elements(usize, &'static [u64]),
    /// How many rows the file says that a table has, by the table's number; less than 256.
    Rows(usize, u8),
    /// So many bytes of the table file are left.
    Size(usize),
    /// The statement is this text.
    Statement(&'static str),
}

/// A run whose files are changed, and what is answered over them then.
#[derive(Clone, Copy)]
pub struct Forgery {
    pub run: Row,
    pub changes: &'static [Change],
    pub next: Row,
}

pub const RUN: &[u8] = b"run z s i --out t --statement u";

pub const CHECK: &[u8] = b"check z t u --evidence e";

// A row is a line: the words, the files, the number and the text, and what fails, as `call 3` or `write 1`.
macro_rules! rows {
    ($($words:tt $files:tt => $number:literal $printed:tt $($fault:ident $nth:literal)?;)*) => {
        [$($crate::tests::row::row!($words $files => $number $printed $($fault $nth)?)),*]
    };
}

// A line with the changes, where there are some, and a second one.
macro_rules! forgeries {
    ($(
        $words:tt $files:tt => $number:literal $printed:tt $(changed [$($change:ident $what:tt),*])?,
        $next:tt $left:tt => $status:literal $line:tt;
    )*) => {
        [$($crate::tests::row::Forgery {
            run: $crate::tests::row::row!($words $files => $number $printed),
            changes: &[$($($crate::tests::row::Change::$change $what),*)?],
            next: $crate::tests::row::row!($next $left => $status $line),
        }),*]
    };
}

// A file by its name alone is that of most rows: parameters of zeros, inputs of nothing, the table file of `begin end`.
macro_rules! row {
    ($words:tt {$($name:ident $(= $text:tt)? $(: $kind:ident $of:tt)?),*} => $number:literal $printed:tt $($fault:ident $nth:literal)?) => {
        $crate::tests::row::Row {
            words: $words,
            files: &[$((stringify!($name), $crate::tests::row::row!(@file $name $(= $text)? $(: $kind $of)?))),*],
            number: $number,
            printed: $printed,
            fault: $crate::tests::row::row!(@fault $($fault $nth)?),
        }
    };
    (@file z) => {
        $crate::tests::content::Content::Lines(168, 0, "")
    };
    (@file i) => {
        $crate::tests::content::Content::Text(r#"{"advice":[],"stack":[]}"#)
    };
    (@file j) => {
        $crate::tests::content::Content::Text(r#"{"advice":[],"stack":[]}"#)
    };
    (@file t) => {
        $crate::tests::content::Content::Table(&[], 3748)
    };
    (@file $name:ident = $text:tt) => {
        $crate::tests::content::Content::Text($text)
    };
    (@file $name:ident: $kind:ident $of:tt) => {
        $crate::tests::content::Content::$kind $of
    };
    (@fault) => {
        $crate::tests::row::Fault::Nothing
    };
    (@fault call $nth:literal) => {
        $crate::tests::row::Fault::Call($nth)
    };
    (@fault write $nth:literal) => {
        $crate::tests::row::Fault::Write($nth)
    };
}

pub(crate) use forgeries;
pub(crate) use row;
pub(crate) use rows;
