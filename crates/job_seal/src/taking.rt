// Takes frames from a source, one after another.
ghost use Rattle.std.specs.Prelude.{◌≡◌, ◌≤◌, ◌<◌, ◌^◌, length, IfOk, IfErr, IsErrOf};
ghost use Rattle.std.specs.Io.KnownBytes.{Consumes, IsAtEnd};
ghost use Rattle.outside_io.specs.Causes.{Rose};
ghost use Rattle.byteorder.specs.Endian.{big_bytes};
ghost use Rattle.job_seal.specs.Proofs.{ReadsNext, StopsReading, StopsTaking};

use crate::stop::ProofStop;
use byteorder::{BigEndian, ByteOrder};
use outside_io::Source;
use std::alloc::Global;

// The number of bytes that are taken at once.
const PIECE: usize = 4096;

/// What comes next in a source of frames.
#[derive(Drop)]
pub enum Next {
    /// The bytes of a whole frame.
    Frame(Vec<u8>),
    /// The end, after a whole frame.
    End,
    /// The end within a frame.
    Cut,
}

// Returns the next `most` bytes, or those up to the end where there are fewer. It asks for memory as the bytes come, however large
// `most` is. `Input`: the source failed; `Long`: more than `room` bytes were taken.
fn take_up_to<S: Source>(
    alloc: Global,
    source: &mut S,
    most: u64,
    room: u64,
) -> Result<Vec<u8>, ProofStop>
    ensures taken { IfOk result (λ bytes. Consumes (S.left source.old) (S.left source.new) bytes.items) }
    ensures few { IfOk result (λ bytes. length bytes.items ≤ most) }
    ensures within { IfOk result (λ bytes. length bytes.items ≤ room) }
    ensures end { IfOk result (λ bytes. length bytes.items < most → IsAtEnd (S.left source.new)) }
    ensures stops { IfErr result (StopsTaking most room (S.left source.old) (S.left source.new)) }
    ensures later { S.faults source.old ≤ S.faults source.new }
    ensures input { IsErrOf result ProofStop.Input → Rose (S.faults source.old) (S.faults source.new) }
{
    let mut bytes = Vec::new(alloc);
    let mut buf = [0u8; PIECE];
    'pieces: while (bytes.len() as u64) < most {
        let wanted = (most - bytes.len() as u64).min(PIECE as u64) as usize;
        let Ok(count) = source.take(&mut buf[..wanted]) else {
            return Err(ProofStop::Input);
        };
        if count == 0 {
            return Ok(bytes);
        }
        if count as u64 > room - bytes.len() as u64 {
            return Err(ProofStop::Long);
        }
        bytes.extend_from_slice(&buf[..count])?;
    }
    Ok(bytes)
}

// Returns the number in a field of eight bytes.
fn number_in(field: &[u8]) -> u64
    requires { length field.now ≡ 8 }
    ensures spelled { field.now ≡ big_bytes 8 result }
    ensures below { result < 2 ^ 64 }
{
    BigEndian::read_u64(field)
}

/// Returns the next frame, where it ends within the next `room` bytes. It asks for no more memory than the bytes that came can fill.
pub fn next_frame<S: Source>(alloc: Global, source: &mut S, room: u64) -> Result<Next, ProofStop>
    ensures reads { IfOk result (ReadsNext room (S.left source.old) (S.left source.new)) }
    ensures stops { IfErr result (StopsReading room (S.left source.old) (S.left source.new)) }
    ensures later { S.faults source.old ≤ S.faults source.new }
    ensures input { IsErrOf result ProofStop.Input → Rose (S.faults source.old) (S.faults source.new) }
{
    let size = take_up_to(alloc, source, 8, room)?;
    if size.is_empty() {
        return Ok(Next::End);
    }
    if size.len() < 8 {
        return Ok(Next::Cut);
    }
    let most = number_in(&size);
    let body = take_up_to(alloc, source, most, room - 8)?;
    if (body.len() as u64) < most {
        return Ok(Next::Cut);
    }
    Ok(Next::Frame(body))
}
