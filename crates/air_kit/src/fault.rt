ghost use Rattle.std.specs.Prelude.{◌≡◌, ◌≤◌, length};
ghost use Rattle.air_kit.specs.Places.{first_fault_of, or_next};

use crate::trace::TableName;
use vm_field::Felt;

/// A place at which an entry is not 0: the table, the row, the entry's number and its value.
#[derive(Clone, Copy, Debug, PartialEq, Eq)]
pub struct Fault {
    pub table: TableName,
    pub row: u32,
    pub number: u16,
    pub value: Felt,
}

/// The first value that is not 0, with its number, where the numbers count up from this one.
pub fn first_nonzero(values: &[Felt], number: u16) -> Option<(u16, Felt)>
    requires few { length values.now ≤ 200 }
    requires small { number ≤ 200 }
    ensures { result ≡ first_fault_of number values.now }
{
    for (i, value) in values.iter().enumerate() {
        if value.value() != 0 {
            return Some((number + i as u16, *value));
        }
    }
    None
}

/// The first of two answers that there is.
pub fn or_next(fault: Option<(u16, Felt)>, later: Option<(u16, Felt)>) -> Option<(u16, Felt)>
    ensures { result ≡ or_next fault later }
{
    match fault {
        Some(found) => Some(found),
        None => later,
    }
}
