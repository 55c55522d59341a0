ghost use Rattle.std.specs.Prelude.{◌≡◌, ℕ, ◌+◌, ◌<◌, ◌++◌, [], ◌∷◌, List, length, nat_eq, unwrap_or, IfOk};
ghost use Rattle.std.specs.HashMap.{get};
ghost use lib.Pointwise.{pointwise};
ghost use Rattle.vm_field.specs.Field.{prime};
ghost use Rattle.fill_chips.specs.KernelRows.{kernel_rows, times_called};

use std::alloc::Global;
use std::collections::HashMap;
use vm_field::{Felt, Memory, Word};
use vm_table::Table;

/// A row for each word of the kernel, with how often it is called. Where a word stands twice, its
/// first row has its count.
pub(crate) fn kernel_table(
    alloc: Global,
    kernel: &[Word],
    calls: &[Word],
) -> Result<Table<5>, Memory>
    requires few { length calls.now < prime }
    ensures rows { IfOk result (λ table. table ≡ kernel_rows (times_called calls.now) kernel.now) }
{
    let mut times = times_of(alloc, calls)?;
    let mut table = Table::new(alloc);
    table.reserve(kernel.len())?;
    for word in kernel {
        let count = times.remove(word).unwrap_or(0);
        table.push_row(&row_of(word, count))?;
    }
    Ok(table)
}

// How often each word is called.
fn times_of(alloc: Global, calls: &[Word]) -> Result<HashMap<Word, u64>, Memory>
    ensures times { IfOk result
        (λ times. (u : List ℕ) → unwrap_or (get (pointwise nat_eq) times u) 0 ≡ times_called calls.now u) }
{
    let mut times = HashMap::new(alloc);
    for word in calls {
        *times.entry(*word)?.or_insert(0) += 1;
    }
    Ok(times)
}

// A word and its count.
fn row_of(word: &Word, count: u64) -> [Felt; 5]
    requires { count < prime }
    ensures { result ≡ word.now ++ count ∷ [] }
{
    let [first, second, third, fourth] = word.elements();
    [
        first,
        second,
        third,
        fourth,
        Felt::reduced(u128::from(count)),
    ]
}
