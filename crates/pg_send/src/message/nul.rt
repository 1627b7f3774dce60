//! A search for a NUL, by vectors.

ghost use Rattle.std.specs.Prelude.{◌≡◌, ◌↔◌, ◌<◌, ◌≤◌, length, IsTrue};
ghost use Rattle.pg_base.specs.Reading.{HoldsNo};

use std::simd::prelude::*;

/// Whether bytes hold no NUL.
#[inline(never)]
pub fn holds_no_nul(bytes: &[u8]) -> bool
    ensures { IsTrue result ↔ HoldsNo 0 bytes.now }
{
    if bytes.len() >= 16 {
        return has_none_in_many(bytes);
    }
    if bytes.len() >= 8 {
        return has_none_by::<8>(bytes);
    }
    if bytes.len() >= 4 {
        return has_none_by::<4>(bytes);
    }
    if bytes.len() >= 2 {
        return has_none_by::<2>(bytes);
    }
    bytes.is_empty() || has_none_by::<1>(bytes)
}

#[inline(always)]
fn has_none_in_many(bytes: &[u8]) -> bool
    requires { 16 ≤ length bytes.now }
    ensures { IsTrue result ↔ HoldsNo 0 bytes.now }
{
    if bytes.len() >= 64 {
        return has_none_by::<64>(bytes);
    }
    if bytes.len() >= 32 {
        return has_none_by::<32>(bytes);
    }
    has_none_by::<16>(bytes)
}

// The least byte of each lane, over the last N bytes and those before.
#[inline(always)]
fn has_none_by<const N: usize>(bytes: &[u8]) -> bool
    requires lanes { (0 < N) × (N ≤ 64) }
    requires room { N ≤ length bytes.now }
    ensures { IsTrue result ↔ HoldsNo 0 bytes.now }
{
    let last = bytes.len() - N;
    let mut least = Simd::<u8, N>::from_slice(&bytes[last..]);
    let mut at = 0;
    while at < last {
        least = least.simd_min(Simd::from_slice(&bytes[at..]));
        at += N;
    }
    least.simd_eq(Simd::splat(0)).to_bitmask() == 0
}
