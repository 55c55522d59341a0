ghost use Rattle.std.specs.Prelude.{◌≡◌, ◌==◌, ◌+◌, ◌≤◌, drop, length, IfOk};
ghost use Rattle.byteorder.specs.Endian.{little_number};
ghost use Rattle.table_file.specs.Fields.{number_at};
ghost use Rattle.table_file.specs.Files.{AreFew, head_of, is_version, magic};
ghost use Rattle.table_file.specs.declared.cause.FileCause.TheVariants as cause;

use crate::cause::{FileCause, FileError, bad};
use crate::counts::read_counts;
use byteorder::{ByteOrder, LittleEndian};

/// The bytes `MDTB`, as a number of 32 bits whose lowest byte stands first.
pub(crate) const MAGIC: u32 = 0x4254_444d;

/// The first version of the format, which is still read.
pub(crate) const FIRST_VERSION: u32 = 1;

/// The version of the format that is written, and read.
pub(crate) const VERSION: u32 = 2;

/// How many bytes stand in front of the first row.
pub(crate) const HEAD_BYTES: usize = 36;

/// The row counts that the head of a file tells.
#[tactic(auto, unfolding(crate::specs::Files::head_of))]
pub(crate) fn read_head(bytes: &[u8]) -> Result<[usize; 7], FileError>
    ensures is { result ≡ head_of bytes.now }
    ensures few { IfOk result AreFew }
{
    read_magic(bytes)?;
    let version = read_version(bytes)?;
    read_counts(bytes, version)
}

#[tactic(auto, unfolding(crate::specs::Fields::number_at))]
fn read_magic(bytes: &[u8]) -> Result<u32, FileError>
    ensures { result ≡ number_at bytes.now 4 cause.Magic (λ n. n == magic) 0 }
{
    if bytes.len() < 4 {
        return Err(bad(0, FileCause::Ended));
    }
    let number = read_u32(bytes, 0);
    if number == MAGIC {
        Ok(number)
    } else {
        Err(bad(0, FileCause::Magic))
    }
}

#[tactic(auto, unfolding(crate::specs::Fields::number_at))]
fn read_version(bytes: &[u8]) -> Result<u32, FileError>
    ensures { result ≡ number_at bytes.now 4 cause.Version is_version 4 }
{
    if bytes.len() < 8 {
        return Err(bad(4, FileCause::Ended));
    }
    let version = read_u32(bytes, 4);
    if version == FIRST_VERSION || version == VERSION {
        Ok(version)
    } else {
        Err(bad(4, FileCause::Version))
    }
}

/// The number in the four bytes from a place on, lowest first.
pub(crate) fn read_u32(bytes: &[u8], at: usize) -> u32
    requires { at + 4 ≤ length bytes.now }
    ensures { result ≡ little_number 4 (drop at bytes.now) }
{
    LittleEndian::read_u32(part_from(bytes, at))
}

/// What stands from a place on.
pub(crate) fn part_from(bytes: &[u8], at: usize) -> &[u8]
    requires { at ≤ length bytes.now }
    ensures { result.now ≡ drop at bytes.entry.now }
{
    &bytes[at..]
}
