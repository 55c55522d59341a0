ghost use Rattle.std.specs.Prelude.{◌≡◌, ◌≤◌, IfOk};
ghost use Rattle.air_kit.specs.Tables.{every_table};
ghost use Rattle.air_kit.specs.Traces.{most_rows};
ghost use Rattle.table_file.specs.Files.{AreFew, count_at, counts_at, may_have_in};

use crate::cause::{FileCause, FileError, bad};
use crate::head::{FIRST_VERSION, read_u32};
use air_kit::{TableName, may_have};

// At most so many cells are left in a file of the first version, from before runs could begin with more than 16 cells.
const FIRST_MOST_LEFT: usize = 1 << 19;

// Whether a table may have so many rows in a file of a version.
#[tactic(auto, using(crate::proofs::Versions::left_in_first, crate::proofs::Versions::left_in_this, crate::proofs::Versions::others_in))]
fn may_have_in(version: u32, table: TableName, count: usize) -> bool
    ensures { result ≡ may_have_in version table count }
{
    match table {
        TableName::Left => {
            may_have(table, count) && (version != FIRST_VERSION || count <= FIRST_MOST_LEFT)
        }
        _ => may_have(table, count),
    }
}

#[tactic(auto, unfolding(crate::specs::Fields::number_at))]
fn read_count(bytes: &[u8], version: u32, table: TableName, at: usize) -> Result<usize, FileError>
    requires { at ≤ 100 }
    ensures is { result ≡ count_at bytes.now version table at }
    ensures few { IfOk result (λ count. count ≤ most_rows table) }
{
    if bytes.len() < at + 4 {
        return Err(bad(at, FileCause::Ended));
    }
    let count = read_u32(bytes, at) as usize;
    if may_have_in(version, table, count) {
        Ok(count)
    } else {
        Err(bad(at, FileCause::Count))
    }
}

/// How many rows each table has, which stands behind the version, whose limits it keeps.
#[tactic(auto, unfolding(crate::specs::Files::counts_at))]
pub(crate) fn read_counts(bytes: &[u8], version: u32) -> Result<[usize; 7], FileError>
    ensures is { result ≡ counts_at bytes.now version every_table 8 }
    ensures few { IfOk result AreFew }
{
    let main = read_count(bytes, version, TableName::Main, 8)?;
    let range = read_count(bytes, version, TableName::Range, 12)?;
    let hasher = read_count(bytes, version, TableName::Hasher, 16)?;
    let bitwise = read_count(bytes, version, TableName::Bitwise, 20)?;
    let memory = read_count(bytes, version, TableName::Memory, 24)?;
    let kernel = read_count(bytes, version, TableName::Kernel, 28)?;
    let left = read_count(bytes, version, TableName::Left, 32)?;
    Ok([main, range, hasher, bitwise, memory, kernel, left])
}
