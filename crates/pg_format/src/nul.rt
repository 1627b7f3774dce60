//! A search for the first NUL.

ghost use Rattle.std.specs.Prelude.{◌≡◌, ◌+◌, ◌<◌, ◌≤◌, length};
ghost use Rattle.memchr.specs.Find.{IsFirst, IsFirstByte, Passes, is_byte};

use memchr::memchr;
use std::simd::prelude::*;

// How many bytes are searched here. Most texts are shorter; memchr takes more steps before it searches, and is faster then.
const NEAR: usize = 128;

/// Where the first NUL is.
#[inline(never)]
pub(crate) fn find_nul(bytes: &[u8]) -> Option<usize>
    ensures { IsFirstByte (is_byte 0) bytes.now result }
{
    if bytes.len() <= NEAR {
        return find_near(bytes, bytes.len());
    }
    if let Some(found) = find_near(bytes, NEAR) {
        return Some(found);
    }
    Some(NEAR + memchr(0, &bytes[NEAR..])?)
}

// The first NUL before an offset.
#[inline(always)]
fn find_near(bytes: &[u8], end: usize) -> Option<usize>
    requires { end ≤ length bytes.now }
    ensures { IsFirst (Passes (is_byte 0) bytes.now) 0 end result }
{
    if end >= 64 {
        return find_by::<32>(bytes, end);
    }
    if end >= 16 {
        return find_by::<16>(bytes, end);
    }
    if end >= 4 {
        return find_by::<4>(bytes, end);
    }
    if end > 0 {
        return find_by::<1>(bytes, end);
    }
    None
}

// The same, by vectors of N bytes, the last of which may begin before the end of the one before.
#[inline(always)]
fn find_by<const N: usize>(bytes: &[u8], end: usize) -> Option<usize>
    requires lanes { (0 < N) × (N ≤ 64) }
    requires room { (N ≤ end) × (end ≤ length bytes.now) }
    ensures { IsFirst (Passes (is_byte 0) bytes.now) 0 end result }
{
    let last = end - N;
    let mut at = 0;
    while at < last {
        if let Some(found) = find_among::<N>(bytes, at) {
            return Some(found);
        }
        at += N;
    }
    find_among::<N>(bytes, last)
}

// The first NUL of N bytes from an offset on.
#[inline(always)]
fn find_among<const N: usize>(bytes: &[u8], at: usize) -> Option<usize>
    requires lanes { N ≤ 64 }
    requires room { at + N ≤ length bytes.now }
    ensures { IsFirst (Passes (is_byte 0) bytes.now) at (at + N) result }
{
    let lanes = Simd::<u8, N>::from_slice(&bytes[at..]);
    let found = lanes.simd_eq(Simd::splat(0)).to_bitmask();
    if found == 0 {
        return None;
    }
    Some(at + found.trailing_zeros() as usize)
}
