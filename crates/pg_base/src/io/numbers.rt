//! Whole numbers in a body, highest byte first.

ghost use Rattle.std.specs.Prelude.{◌≡◌, ◌+◌, ◌≤◌, length, drop, IfOk, IfErr};
ghost use Rattle.pg_base.specs.Error.{IsShort};
ghost use Rattle.pg_base.specs.Reading.{IsPartAt, Number, Signed};

use crate::error::ProtocolFault;
use byteorder::{BigEndian, ByteOrder};

/// So many bytes of a body, from an offset within it. Refused with `Short` where fewer are there.
pub fn bytes_at(body: &[u8], at: usize, needed: usize) -> Result<&[u8], ProtocolFault>
    requires { at ≤ length body.now }
    ensures found { IfOk result (λ bytes. IsPartAt body.now at needed bytes.now) }
    ensures short { IfErr result (IsShort body.now at needed) }
{
    let rest = &body[at..];
    if rest.len() < needed {
        return Err(ProtocolFault::Short {
            at,
            needed,
            got: rest.len(),
        });
    }
    Ok(&rest[..needed])
}

/// The byte at an offset within a body, or `Short`.
pub fn u8_at(body: &[u8], at: usize) -> Result<u8, ProtocolFault>
    requires { at ≤ length body.now }
    ensures found { IfOk result (λ n. Number 1 (drop at body.now) n (drop (at + 1) body.now)) }
    ensures short { IfErr result (IsShort body.now at 1) }
{
    Ok(bytes_at(body, at, 1)?[0])
}

/// The number of two bytes at an offset within a body, or `Short`.
pub fn u16_at(body: &[u8], at: usize) -> Result<u16, ProtocolFault>
    requires { at ≤ length body.now }
    ensures found { IfOk result (λ n. Number 2 (drop at body.now) n (drop (at + 2) body.now)) }
    ensures short { IfErr result (IsShort body.now at 2) }
{
    Ok(BigEndian::read_u16(bytes_at(body, at, 2)?))
}

/// The number of four bytes at an offset within a body, or `Short`.
pub fn u32_at(body: &[u8], at: usize) -> Result<u32, ProtocolFault>
    requires { at ≤ length body.now }
    ensures found { IfOk result (λ n. Number 4 (drop at body.now) n (drop (at + 4) body.now)) }
    ensures short { IfErr result (IsShort body.now at 4) }
{
    Ok(BigEndian::read_u32(bytes_at(body, at, 4)?))
}

/// The number of eight bytes at an offset within a body, or `Short`.
pub fn u64_at(body: &[u8], at: usize) -> Result<u64, ProtocolFault>
    requires { at ≤ length body.now }
    ensures found { IfOk result (λ n. Number 8 (drop at body.now) n (drop (at + 8) body.now)) }
    ensures short { IfErr result (IsShort body.now at 8) }
{
    Ok(BigEndian::read_u64(bytes_at(body, at, 8)?))
}

/// The signed number of one byte at an offset within a body, or `Short`.
pub fn i8_at(body: &[u8], at: usize) -> Result<i8, ProtocolFault>
    requires { at ≤ length body.now }
    ensures found { IfOk result (λ z. Signed 1 (drop at body.now) z (drop (at + 1) body.now)) }
    ensures short { IfErr result (IsShort body.now at 1) }
{
    Ok(bytes_at(body, at, 1)?[0].cast_signed())
}

/// The signed number of two bytes at an offset within a body, or `Short`.
pub fn i16_at(body: &[u8], at: usize) -> Result<i16, ProtocolFault>
    requires { at ≤ length body.now }
    ensures found { IfOk result (λ z. Signed 2 (drop at body.now) z (drop (at + 2) body.now)) }
    ensures short { IfErr result (IsShort body.now at 2) }
{
    Ok(BigEndian::read_i16(bytes_at(body, at, 2)?))
}

/// The signed number of four bytes at an offset within a body, or `Short`.
pub fn i32_at(body: &[u8], at: usize) -> Result<i32, ProtocolFault>
    requires { at ≤ length body.now }
    ensures found { IfOk result (λ z. Signed 4 (drop at body.now) z (drop (at + 4) body.now)) }
    ensures short { IfErr result (IsShort body.now at 4) }
{
    Ok(BigEndian::read_i32(bytes_at(body, at, 4)?))
}

/// The signed number of eight bytes at an offset within a body, or `Short`.
pub fn i64_at(body: &[u8], at: usize) -> Result<i64, ProtocolFault>
    requires { at ≤ length body.now }
    ensures found { IfOk result (λ z. Signed 8 (drop at body.now) z (drop (at + 8) body.now)) }
    ensures short { IfErr result (IsShort body.now at 8) }
{
    Ok(BigEndian::read_i64(bytes_at(body, at, 8)?))
}
