ghost use Rattle.std.specs.Prelude.{◌≡◌, [], ◌∷◌, map, IfOk};

use std::alloc::Global;
use vm_field::{Felt, Memory};
use vm_table::Table;

/// A row for each key of a cell that is left below the sixteenth.
pub(crate) fn left_table(alloc: Global, keys: &[Felt]) -> Result<Table<1>, Memory>
    ensures rows { IfOk result (λ table. table ≡ map (λ key. key ∷ []) keys.now) }
{
    let mut table = Table::new(alloc);
    table.reserve(keys.len())?;
    for key in keys {
        table.push_row(&[*key])?;
    }
    Ok(table)
}
