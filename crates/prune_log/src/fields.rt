//! The fields of logs, read from the front of bytes or appended to bytes. Reading fails with `Cut` where the bytes end too early.

ghost use Rattle.std.specs.Prelude.{◌≡◌, ◌++◌, ◌∷◌, [], length, IfOk, OnOk, OnErr};
ghost use Rattle.byteorder.specs.Endian.{big_bytes};
ghost use Rattle.prune_log.specs.Reading.{Gives, byte_at, number_at, front_at};

use crate::fault::LogFault;
use byteorder::{BigEndian, ByteOrder};
use std::alloc::AllocError;

/// Reads a byte, and returns the bytes behind it too.
pub fn byte_at(bytes: &[u8]) -> Result<(u8, &[u8]), LogFault>
    ensures { Gives (λ x. (x.0, x.1.now)) result (byte_at bytes.now) }
{
    match bytes {
        [] => Err(LogFault::Cut),
        [byte, rest @ ..] => Ok((*byte, rest)),
    }
}

/// Reads a number of four bytes, and returns the bytes behind it too.
pub fn u32_at(bytes: &[u8]) -> Result<(u32, &[u8]), LogFault>
    ensures { Gives (λ x. (x.0, x.1.now)) result (number_at 4 bytes.now) }
{
    if bytes.len() < 4 {
        return Err(LogFault::Cut);
    }
    Ok((BigEndian::read_u32(bytes), &bytes[4..]))
}

/// Reads a number of eight bytes, and returns the bytes behind it too.
pub fn u64_at(bytes: &[u8]) -> Result<(u64, &[u8]), LogFault>
    ensures { Gives (λ x. (x.0, x.1.now)) result (number_at 8 bytes.now) }
{
    if bytes.len() < 8 {
        return Err(LogFault::Cut);
    }
    Ok((BigEndian::read_u64(bytes), &bytes[8..]))
}

/// Returns the first `count` bytes, and the bytes behind them.
pub fn front_at(bytes: &[u8], count: u64) -> Result<(&[u8], &[u8]), LogFault>
    ensures gives { Gives (λ x. (x.0.now, x.1.now)) result (front_at count bytes.now) }
    ensures size { IfOk result (λ x. length x.0.now ≡ count) }
{
    if count > bytes.len() as u64 {
        return Err(LogFault::Cut);
    }
    Ok(bytes.split_at(count as usize))
}

/// Appends a number of four bytes.
pub fn put_u32(out: &mut Vec<u8>, n: u32) -> Result<(), AllocError>
    ensures ok { OnOk result (out.new.items ≡ out.old.items ++ big_bytes 4 n) }
    ensures err { OnErr result (out.new.items ≡ out.old.items) }
{
    let mut bytes = [0u8; 4];
    BigEndian::write_u32(&mut bytes, n);
    out.extend_from_slice(&bytes)
}

/// Appends a number of eight bytes.
pub fn put_u64(out: &mut Vec<u8>, n: u64) -> Result<(), AllocError>
    ensures ok { OnOk result (out.new.items ≡ out.old.items ++ big_bytes 8 n) }
    ensures err { OnErr result (out.new.items ≡ out.old.items) }
{
    let mut bytes = [0u8; 8];
    BigEndian::write_u64(&mut bytes, n);
    out.extend_from_slice(&bytes)
}
