//! Whole reads and whole writes.

ghost use Rattle.std.specs.Prelude.{◌≡◌, ℕ, ◌≤◌, ◌<◌, List, [], length, take, IfOk, OnOk, OnErr, MatchResult, vec_len};
ghost use Rattle.host_io.specs.Exposed.{WhereExposed, grown_by};
ghost use Rattle.host_io.specs.Counts.{ReadCounts};

use crate::errors::{ReadFault, WriteFault};
use crate::files::Files;
use crate::sinks::Sink;
use std::alloc::{AllocError, Global};

/// How many bytes a read of a file asks for.
const PIECE: usize = 65536;

/// A buffer for the bytes of one read.
fn empty_piece(alloc: Global) -> Result<Vec<u8>, AllocError>
    ensures { IfOk result (λ v. 0 < vec_len v) }
{
    vec![in alloc; 0; PIECE]
}

/// All bytes of a file, of which there may be at most `limit`. A longer file is rejected as it is
/// read: no read begins past the limit.
pub fn read_whole<F: Files>(
    alloc: Global,
    files: &mut F,
    name: &str,
    limit: u64,
) -> Result<Vec<u8>, ReadFault>
    ensures bytes { IfOk result (λ v. WhereExposed (F.content files.old name.now)
        (λ exposed. v.items ≡ exposed)) }
    ensures within { IfOk result (λ v. vec_len v ≤ limit) }
    ensures too_long { (most : ℕ) → result ≡ Err (ReadFault.TooLong most) → most ≡ limit }
    ensures longer { (most : ℕ) → result ≡ Err (ReadFault.TooLong most)
        → WhereExposed (F.content files.old name.now) (λ exposed. limit < length exposed) }

    // A fault is answered where the count rose in this call, and only there.
    ensures counts { MatchResult result
        (λ _. F.faults files.new name.now ≡ F.faults files.old name.now)
        (λ e. ReadCounts e (F.faults files.old name.now) (F.faults files.new name.now)) }
    ensures rises { (other : List ℕ) → F.faults files.old other ≤ F.faults files.new other }
    ensures content { (other : List ℕ) → F.content files.new other
        ≡ F.content files.old other }
{
    let mut bytes = Vec::new(alloc);
    let mut piece = empty_piece(alloc)?;
    loop {
        let count = files.read(name, bytes.len() as u64, &mut piece)?;
        if count == 0 {
            return Ok(bytes);
        }
        if count as u64 > limit - bytes.len() as u64 {
            return Err(ReadFault::TooLong { limit });
        }
        bytes.extend_from_slice(&piece[..count])?;
    }
}

/// Writes all bytes. Of none the sink is not asked at all. After a fault it has taken a prefix of
/// them.
pub fn write_whole<S: Sink>(sink: &mut S, bytes: &[u8]) -> Result<(), WriteFault>
    ensures ok { OnOk result (S.written sink.new ≡ grown_by (S.written sink.old) bytes.now) }
    ensures part { OnErr result ((n : ℕ) × (n < length bytes.now)
        × (S.written sink.new ≡ grown_by (S.written sink.old) (take n bytes.now))) }
    ensures none { bytes.now ≡ [] → sink.new ≡ sink.old }

    // A fault is answered where the count rose in this call, and only there.
    ensures counts { MatchResult result (λ _. S.faults sink.new ≡ S.faults sink.old)
        (λ _. S.faults sink.old < S.faults sink.new) }
{
    let mut done = 0;
    while done < bytes.len() {
        done += sink.write(&bytes[done..])?;
    }
    Ok(())
}
