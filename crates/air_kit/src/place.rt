use crate::trace::Public;
use vm_field::Felt;

/// A row in its place, with what the entries and buses read beside it.
#[derive(Drop)]
pub struct Place<'a, V> {
    /// The row.
    pub cur: V,
    /// The one after it; none behind the last row.
    pub next: Option<V>,
    /// The row's number in its table, from 0 on.
    pub row: u32,
    /// How many rows each table has, in their order.
    pub lengths: [u32; 7],
    /// The key in the first row of the table of cells left, or 0 where it has none.
    pub left_key: Felt,
    /// The constants and the statement.
    pub public: &'a Public,
}
