ghost use Rattle.std.specs.Prelude.{◌≡◌, ◌≢◌, ℕ, ◌+◌, ◌≤◌, List, [], length, take, IfOk, OnOk, OnErr, IsErrOf};
ghost use Rattle.std.specs.Io.KnownBytes.{Appends, Consumes, IsAtEnd};

use std::alloc::Global;
use std::io;
use std::io::{Read, Write};
use vm_field::Bytes;
use vm_io::{Piece, Pieces, ReadStop, Taker};

// The most bytes that one read asks for.
const PIECE: usize = 65_536;

/// All that a reader has left, which may be `max` bytes at most. It reads no further than one byte
/// behind them, and tries no read again that failed.
pub fn read_whole<R: Read>(alloc: Global, source: &mut R, max: u64) -> Result<Bytes, ReadStop>
    ensures within { IfOk result (λ bytes. length bytes ≤ max) }
    ensures whole { IfOk result (λ bytes. Consumes (R.remaining source.old) (R.remaining source.new) bytes) }
    ensures end { OnOk result (IsAtEnd (R.remaining source.new)) }
    ensures too_long { IsErrOf result ReadStop.TooLong → (bytes : List ℕ) × (length bytes ≡ max + 1)
        × Consumes (R.remaining source.old) (R.remaining source.new) bytes }
    ensures present { result ≢ Err ReadStop.Missing }
{
    let mut bytes = Bytes::new(alloc);
    let mut piece = [0u8; PIECE];
    loop {
        let length = bytes.as_slice().len() as u64;
        if max < length {
            return Err(ReadStop::TooLong);
        }
        let room = (max - length).min(PIECE as u64 - 1) as usize + 1;
        let Ok(count) = source.read(&mut piece[..room]) else {
            return Err(ReadStop::Failed);
        };
        if count == 0 {
            return Ok(bytes);
        }
        if bytes.append(&piece[..count]).is_err() {
            return Err(ReadStop::Memory);
        }
    }
}

/// Gives all that a reader has left, which may be `max` bytes at most, to a taker that has taken nothing yet. It reads as
/// `read_whole` does, and keeps no more than one piece in memory.
pub fn read_all<R: Read, T: Taker>(source: &mut R, max: u64, taker: &mut T) -> Result<(), ReadStop>
    requires { T.took taker.old [] }
    ensures whole { OnOk result ((bytes : List ℕ) × (length bytes ≤ max) × T.took taker.new bytes
        × Consumes (R.remaining source.old) (R.remaining source.new) bytes) }
    ensures end { OnOk result (IsAtEnd (R.remaining source.new)) }
    ensures too_long { IsErrOf result ReadStop.TooLong → (bytes : List ℕ) × (length bytes ≡ max + 1)
        × Consumes (R.remaining source.old) (R.remaining source.new) bytes }
    ensures present { result ≢ Err ReadStop.Missing }
{
    let mut piece = [0u8; PIECE];
    let mut left = max;
    loop {
        let room = left.min(PIECE as u64 - 1) as usize + 1;
        let Ok(count) = source.read(&mut piece[..room]) else {
            return Err(ReadStop::Failed);
        };
        if count == 0 {
            return Ok(());
        }
        if left < count as u64 {
            return Err(ReadStop::TooLong);
        }
        taker.take_piece(&piece[..count]);
        left -= count as u64;
    }
}

/// Writes all bytes. A write that takes nothing is a failure, and none that failed is tried again.
#[tactic(auto, using(crate::proofs::WholeLemmas::written_further))]
pub fn write_whole<W: Write>(target: &mut W, bytes: &[u8]) -> io::Result<()>
    ensures whole { OnOk result (Appends (W.contents target.old) (W.contents target.new) bytes.now) }
    ensures front { OnErr result ((n : ℕ) × Appends (W.contents target.old) (W.contents target.new) (take n bytes.now)) }
{
    let mut at = 0;
    while at < bytes.len() {
        match target.write(&bytes[at..]) {
            Ok(0) => return Err(io::Error::from(io::ErrorKind::WriteZero)),
            Ok(count) => at += count,
            Err(error) => return Err(error),
        }
    }
    Ok(())
}

/// Writes all that the pieces have left, each piece as `write_whole` does.
#[tactic(auto, using(crate::proofs::PieceLemmas::begins, crate::proofs::PieceLemmas::goes_on, crate::proofs::PieceLemmas::ends))]
pub fn write_all<W: Write, P: Pieces>(target: &mut W, pieces: &mut P) -> io::Result<()>
    ensures whole { OnOk result (Appends (W.contents target.old) (W.contents target.new) (P.rest pieces.old)) }
    ensures front { OnErr result ((n : ℕ) × Appends (W.contents target.old) (W.contents target.new) (take n (P.rest pieces.old))) }
{
    let mut room = Piece::new();
    loop {
        pieces.next_piece(&mut room);
        if room.is_empty() {
            return Ok(());
        }
        if let Err(error) = write_whole(target, room.as_slice()) {
            return Err(error);
        }
    }
}
