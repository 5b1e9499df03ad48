//! Takes a reader's bytes, up to a limit.

ghost use Rattle.std.specs.IoError.{error_kind};
ghost use Rattle.std.specs.Prelude.{◌≡◌, ◌≢◌, ◌↔◌, ◌≤◌, ◌<◌, ◌++◌, IfOk, IfErr, OnErr};
ghost use Rattle.std.specs.Prelude.{length, take, vec_len};
ghost use Rattle.std.specs.Io.{ReadsAtMost};
ghost use Rattle.std.specs.Io.KnownBytes.{Keeps, Consumes, IsAtEnd};
ghost use Rattle.sts_output.specs.Taking.{IsTakenOf, LosesUpTo};

use std::alloc::{AllocError, Global};
use std::io;
use std::io::{ErrorKind, Read};

/// Why a reader's bytes could not be taken.
#[derive(Clone, Copy)]
pub enum TakeError {
    /// Memory ran out.
    Memory,
    /// A read failed.
    Read,
}

impl TakeError {
    /// Returns the error that a failure of this kind is reported as.
    pub fn of(kind: ErrorKind) -> TakeError
        ensures { (result ≡ TakeError.Memory) ↔ (kind ≡ ErrorKind.OutOfMemory) }
    {
        match kind {
            ErrorKind::OutOfMemory => TakeError::Memory,
            _ => TakeError::Read,
        }
    }
}

/// The bytes that one read asks for at most.
const PIECE: usize = 64 * 1024;

/// One read, tried again if a signal interrupts it.
fn read_once<R: Read>(reader: &mut R, piece: &mut [u8]) -> io::Result<usize>
    ensures bound { ReadsAtMost result piece.new }
    ensures bytes { IfOk result (λ n. Consumes (R.remaining reader.old) (R.remaining reader.new)
        (take n piece.new)) }
    ensures end { IfOk result (λ n. n ≡ 0 → 0 < length piece.old
        → IsAtEnd (R.remaining reader.new)) }
    ensures interrupted { IfErr result (λ e. error_kind e ≢ ErrorKind.Interrupted) }
    ensures err { OnErr result (Keeps (R.remaining reader.old) (R.remaining reader.new)) }
{
    for _ in 0..u64::MAX {
        match reader.read(piece) {
            Ok(n) => return Ok(n),
            Err(error) => {
                if error.kind() != ErrorKind::Interrupted {
                    return Err(error);
                }
            }
        }
    }
    Err(ErrorKind::Other.into())
}

/// Room for what one read gives.
fn piece(alloc: Global) -> Result<Vec<u8>, AllocError>
    ensures { IfOk result (λ piece. vec_len piece ≡ PIECE) }
{
    vec![in alloc; 0; PIECE]
}

/// Takes the piece that one read gives, at most `room` bytes. An empty piece is the reader's end.
fn take_piece<R: Read>(
    reader: &mut R,
    piece: &mut [u8],
    room: usize,
    taken: &mut Vec<u8>,
) -> io::Result<usize>
    requires some { 0 < room }
    requires within { room ≤ length piece.old }
    ensures bound { IfOk result (λ n. n ≤ room) }
    ensures items { IfOk result (λ n. taken.new.items ≡ taken.old.items ++ take n piece.new) }
    ensures read { IfOk result (λ n. Consumes (R.remaining reader.old) (R.remaining reader.new)
        (take n piece.new)) }
    ensures end { IfOk result (λ n. n ≡ 0 → IsAtEnd (R.remaining reader.new)) }
    ensures lost { OnErr result (LosesUpTo room (R.remaining reader.old) (R.remaining reader.new)) }
{
    let n = read_once(reader, &mut piece[..room])?;
    taken.extend_from_slice(&piece[..n])?;
    Ok(n)
}

/// Returns the reader's bytes up to its end, or the first `most` of them. It reads none after
/// these.
///
/// # Errors
///
/// Memory ran out, which is of the kind `OutOfMemory`, or a read failed; the bytes that were
/// read before are lost.
pub fn bytes_of<R: Read>(alloc: Global, reader: &mut R, most: u64) -> io::Result<Vec<u8>>
    ensures known { IfOk result (λ taken. IsTakenOf (R.remaining reader.old) most taken.items) }
    ensures bound { IfOk result (λ taken. length taken.items ≤ most) }
    ensures read { IfOk result (λ taken. Consumes (R.remaining reader.old)
        (R.remaining reader.new) taken.items) }
    ensures lost { OnErr result (LosesUpTo most (R.remaining reader.old) (R.remaining reader.new)) }
{
    let mut piece = piece(alloc)?;
    let mut taken = Vec::new(alloc);
    while (taken.len() as u64) < most {
        let room = (most - taken.len() as u64).min(PIECE as u64) as usize;
        let n = take_piece(reader, &mut piece, room, &mut taken)?;
        if n == 0 {
            return Ok(taken);
        }
    }
    Ok(taken)
}

/// Does what `bytes_of` does, with an error that only says whether memory ran out.
///
/// # Errors
///
/// Memory ran out, or a read failed; the bytes that were read before are lost.
pub fn take<R: Read>(alloc: Global, reader: &mut R, most: u64) -> Result<Vec<u8>, TakeError>
    ensures known { IfOk result (λ taken. IsTakenOf (R.remaining reader.old) most taken.items) }
    ensures bound { IfOk result (λ taken. length taken.items ≤ most) }
    ensures read { IfOk result (λ taken. Consumes (R.remaining reader.old)
        (R.remaining reader.new) taken.items) }
    ensures lost { OnErr result (LosesUpTo most (R.remaining reader.old) (R.remaining reader.new)) }
{
    match bytes_of(alloc, reader, most) {
        Ok(taken) => Ok(taken),
        Err(error) => Err(TakeError::of(error.kind())),
    }
}
