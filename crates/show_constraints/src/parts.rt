//! What each constraint says in its row of docs/CONSTRAINTS.md, where that row has more than one number and the constraint is no sum over
//! operations.
ghost use Rattle.std.specs.Prelude.{◌≡◌, ◌++◌, map, option_map, OnOk};
ghost use Rattle.show_constraints.specs.Parts.{part_as_said, part_in, part_text, parts_of, with_index};

use air_kit::TableName;
use decimal_text::append_number;
use vm_field::{Bytes, Memory};

/// What the constraints from one number to another say: pieces of text between which the index stands that each has, and the first
/// one's index.
#[derive(Clone, Copy)]
pub struct Part {
    first: u16,
    last: u16,
    pieces: &'static [&'static str],
    index: u16,
}

const MAIN: [Part; 19] = [
    Part {
        first: 1,
        last: 7,
        pieces: &["b", " (b", " - 1)"],
        index: 0,
    },
    Part {
        first: 67,
        last: 67,
        pieces: &["([SPLIT] + [LOOP]) s0 (s0 - 1)"],
        index: 0,
    },
    Part {
        first: 68,
        last: 68,
        pieces: &["[REPEAT](s0 - 1)"],
        index: 0,
    },
    Part {
        first: 69,
        last: 69,
        pieces: &["[END] h4 s0"],
        index: 0,
    },
    Part {
        first: 70,
        last: 73,
        pieces: &["[END] h", " (h", " - 1)"],
        index: 4,
    },
    Part {
        first: 74,
        last: 74,
        pieces: &["[END] q (q - 1)"],
        index: 0,
    },
    Part {
        first: 75,
        last: 78,
        pieces: &["([LOOP] + C + [DYN]) h", ""],
        index: 4,
    },
    Part {
        first: 79,
        last: 79,
        pieces: &["C sys"],
        index: 0,
    },
    Part {
        first: 80,
        last: 80,
        pieces: &["[CALLER](1 - sys)"],
        index: 0,
    },
    Part {
        first: 81,
        last: 81,
        pieces: &["[HALT] addr"],
        index: 0,
    },
    Part {
        first: 92,
        last: 94,
        pieces: &["B c", " (c", " - 1)"],
        index: 0,
    },
    Part {
        first: 95,
        last: 95,
        pieces: &["B (c0 + c1 + c2)(c0 + c1 + c2 - 1)"],
        index: 0,
    },
    Part {
        first: 96,
        last: 102,
        pieces: &["B u", " h", ""],
        index: 1,
    },
    Part {
        first: 108,
        last: 108,
        pieces: &["sp stay (1 - sp')"],
        index: 0,
    },
    Part {
        first: 109,
        last: 109,
        pieces: &["sp stay (128 h0' - z)"],
        index: 0,
    },
    Part {
        first: 140,
        last: 140,
        pieces: &["Two (s0 - L(0))"],
        index: 0,
    },
    Part {
        first: 141,
        last: 141,
        pieces: &["Two (s1 - L(2))"],
        index: 0,
    },
    Part {
        first: 142,
        last: 142,
        pieces: &["Three (s2 - L(4))"],
        index: 0,
    },
    Part {
        first: 148,
        last: 151,
        pieces: &["[DYN] h", ""],
        index: 0,
    },
];

const HASHER: [Part; 1] = [Part {
    first: 18,
    last: 29,
    pieces: &["x", "'^7 - u", ""],
    index: 0,
}];

const BITWISE: [Part; 2] = [
    Part {
        first: 2,
        last: 5,
        pieces: &["a", " (a", " - 1)"],
        index: 0,
    },
    Part {
        first: 6,
        last: 9,
        pieces: &["b", " (b", " - 1)"],
        index: 0,
    },
];

const MEMORY: [Part; 9] = [
    Part {
        first: 2,
        last: 2,
        pieces: &["n0 (n0 - 1)"],
        index: 0,
    },
    Part {
        first: 3,
        last: 3,
        pieces: &["n1 (n1 - 1)"],
        index: 0,
    },
    Part {
        first: 4,
        last: 4,
        pieces: &["n0 n1"],
        index: 0,
    },
    Part {
        first: 7,
        last: 7,
        pieces: &["(1 - n0')(ctx' - ctx)"],
        index: 0,
    },
    Part {
        first: 8,
        last: 8,
        pieces: &["(1 - n0')(1 - n1')(addr' - addr)"],
        index: 0,
    },
    Part {
        first: 10,
        last: 10,
        pieces: &["(kind - 1)(kind - 2) v0"],
        index: 0,
    },
    Part {
        first: 11,
        last: 13,
        pieces: &["(kind - 1) v", ""],
        index: 1,
    },
    Part {
        first: 14,
        last: 14,
        pieces: &["(kind' - 1)(kind' - 2)(v0' - g v0)"],
        index: 0,
    },
    Part {
        first: 15,
        last: 17,
        pieces: &["(kind' - 1)(v", "' - g v", ")"],
        index: 1,
    },
];

/// What the constraint of this number is told as, where its row has others.
pub fn part_of(table: TableName, number: u16) -> Option<Part>
    ensures { option_map part_as_said result ≡ part_in number (parts_of table) }
{
    part_in(number, parts_of(table))
}

#[tactic(auto, unfolding(crate::specs::Parts::parts_of))]
fn parts_of(table: TableName) -> &'static [Part]
    ensures { map part_as_said result.now ≡ parts_of table }
{
    match table {
        TableName::Main => &MAIN,
        TableName::Hasher => &HASHER,
        TableName::Bitwise => &BITWISE,
        TableName::Memory => &MEMORY,
        TableName::Range | TableName::Kernel | TableName::Left => &[],
    }
}

#[tactic(auto, unfolding(crate::specs::Parts::part_in))]
fn part_in(number: u16, parts: &[Part]) -> Option<Part>
    ensures { option_map part_as_said result ≡ part_in number (map part_as_said parts.now) }
{
    match parts {
        [] => None,
        [part, parts @ ..] => {
            if part.first <= number && number <= part.last {
                Some(*part)
            } else {
                part_in(number, parts)
            }
        }
    }
}

/// Adds what the constraint of this number says, by the part that has it.
///
/// # Errors
///
/// `Memory` where the system gave none for the longer text.
pub fn append_part(text: &mut Bytes, number: u16, part: &Part) -> Result<(), Memory>
    ensures { OnOk result (text.new ≡ text.old ++ part_text number (part_as_said part.now)) }
{
    let index = u64::from(part.index) + u64::from(number.saturating_sub(part.first));
    append_with_index(text, index, part.pieces)
}

#[tactic(auto, unfolding(crate::specs::Parts::with_index))]
fn append_with_index(text: &mut Bytes, index: u64, pieces: &[&str]) -> Result<(), Memory>
    ensures { OnOk result (text.new ≡ text.old ++ with_index index (map (λ piece. piece.now) pieces.now)) }
{
    match pieces {
        [] => Ok(()),
        [piece] => text.append(piece.as_bytes()),
        [piece, pieces @ ..] => {
            text.append(piece.as_bytes())?;
            append_number(text, index)?;
            append_with_index(text, index, pieces)
        }
    }
}
