//! Whether bytes are ASCII, by vectors.

ghost use Rattle.std.specs.Prelude.{◌↔◌, ◌+◌, ◌<◌, ◌≤◌, All, IsTrue, length, take, drop};
ghost use Rattle.pg_format.specs.Ascii.{IsLow};

use std::simd::prelude::*;

/// Whether all bytes are ASCII.
#[inline(always)]
pub(crate) fn is_ascii(bytes: &[u8]) -> bool
    ensures { IsTrue result ↔ All IsLow bytes.now }
{
    if bytes.len() >= 16 {
        return is_ascii_by::<16>(bytes);
    }
    if bytes.len() >= 8 {
        return is_ascii_by::<8>(bytes);
    }
    if bytes.len() >= 4 {
        return is_ascii_by::<4>(bytes);
    }
    bytes.is_empty() || is_ascii_by::<1>(bytes)
}

// The same, by vectors of N bytes, the last of which may begin before the end of the one before.
#[inline(always)]
fn is_ascii_by<const N: usize>(bytes: &[u8]) -> bool
    requires lanes { (0 < N) × (N ≤ 64) }
    requires room { N ≤ length bytes.now }
    ensures { IsTrue result ↔ All IsLow bytes.now }
{
    let last = bytes.len() - N;
    let mut at = 0;
    while at < last {
        if !is_ascii_at::<N>(bytes, at) {
            return false;
        }
        at += N;
    }
    is_ascii_at::<N>(bytes, last)
}

// Whether the N bytes from an offset on are ASCII.
#[inline(always)]
fn is_ascii_at<const N: usize>(bytes: &[u8], at: usize) -> bool
    requires lanes { N ≤ 64 }
    requires room { at + N ≤ length bytes.now }
    ensures { IsTrue result ↔ All IsLow (take N (drop at bytes.now)) }
{
    let lanes = Simd::<u8, N>::from_slice(&bytes[at..]);
    lanes.simd_ge(Simd::splat(128)).to_bitmask() == 0
}
