//! Reading a source to its end.
ghost use Rattle.std.specs.Io.KnownBytes.{IsAtEnd};
ghost use Rattle.std.specs.Prelude.{◌≡◌, ◌≢◌, ◌+◌, ◌<◌, ◌≤◌, Err, length, vec_len, IfOk, IfSome, OnOk};
ghost use Rattle.suri_outside.specs.Bytes.{GivesAtMost};
ghost use Rattle.suri_outside.specs.Faults.{Rose};

use crate::{BLOCK, Failed, Source};
use std::alloc::{AllocError, Global};

/// Why a source was not read to its end.
#[derive(Clone, Copy, Debug, PartialEq, Eq)]
pub enum Unread {
    /// A read failed.
    Failed,
    /// More bytes were left than the limit.
    Above,
    /// No memory was left for the bytes.
    NoMemory,
}

impl From<AllocError> for Unread {
    ghost use Rattle.suri_outside.specs.declared.reading.Unread.TheVariants.{NoMemory};

    ghost from_gives = { λ _ e. e ≡ NoMemory };

    fn from(_: AllocError) -> Unread {
        Unread::NoMemory
    }
}

/// Reads a source to its end, and answers all bytes that were left, at most `limit` of them.
/// Reading stops as soon as more than `limit` bytes have come.
///
/// `Failed` comes only where the source's count of faults rose, `Above` only where more than
/// `limit` bytes were left, where the source tells them, and `NoMemory` at any point. After an
/// error the bytes that had come are gone from the source, at most 64 KiB above the limit.
pub fn read_whole<S: Source>(alloc: Global, source: &mut S, limit: usize) -> Result<Vec<u8>, Unread>
    ensures whole { IfOk result (λ v. IfSome (S.left source.old) (λ bytes. v.items ≡ bytes)) }
    ensures ended { OnOk result (IsAtEnd (S.left source.new)) }
    ensures fits { IfOk result (λ v. vec_len v ≤ limit) }

    ensures above { result ≡ Err Unread.Above
        → IfSome (S.left source.old) (λ bytes. limit < length bytes) }
    ensures failed { result ≡ Err Unread.Failed → Rose (S.faults source.old) (S.faults source.new) }

    // After each answer, an error too.
    ensures later { S.faults source.old ≤ S.faults source.new }
    // No read is tried again.
    ensures quiet { result ≢ Err Unread.Failed → S.faults source.new ≡ S.faults source.old }
    ensures stops { GivesAtMost (S.left source.old) (S.left source.new) (limit + 65536) }
{
    let mut buffer = zeros(alloc, BLOCK)?;
    read_through(alloc, source, limit, &mut buffer)
}

// A buffer of so many bytes. A clause that says what it holds would make the check spell it out.
fn zeros(alloc: Global, size: usize) -> Result<Vec<u8>, AllocError>
    ensures { IfOk result (λ v. vec_len v ≡ size) }
{
    vec![in alloc; 0; size]
}

// `read_whole` through a buffer.
fn read_through<S: Source>(
    alloc: Global,
    source: &mut S,
    limit: usize,
    buffer: &mut [u8],
) -> Result<Vec<u8>, Unread>
    requires { 0 < length buffer.old }
    ensures whole { IfOk result (λ v. IfSome (S.left source.old) (λ bytes. v.items ≡ bytes)) }
    ensures ended { OnOk result (IsAtEnd (S.left source.new)) }
    ensures fits { IfOk result (λ v. vec_len v ≤ limit) }
    ensures above { result ≡ Err Unread.Above
        → IfSome (S.left source.old) (λ bytes. limit < length bytes) }
    ensures failed { result ≡ Err Unread.Failed → Rose (S.faults source.old) (S.faults source.new) }
    ensures later { S.faults source.old ≤ S.faults source.new }
    ensures quiet { result ≢ Err Unread.Failed → S.faults source.new ≡ S.faults source.old }
    ensures stops { GivesAtMost (S.left source.old) (S.left source.new) (limit + length buffer.old) }
{
    let mut bytes = Vec::new(alloc);
    loop {
        let count = match source.read(buffer) {
            Ok(count) => count,
            Err(Failed) => return Err(Unread::Failed),
        };
        if count == 0 {
            return Ok(bytes);
        }
        bytes.extend_from_slice(&buffer[..count])?;
        if bytes.len() > limit {
            return Err(Unread::Above);
        }
    }
}
