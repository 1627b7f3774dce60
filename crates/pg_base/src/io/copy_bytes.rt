//! Copies of bytes, most of which are few.

ghost use Rattle.std.specs.Prelude.{◌≡◌, ◌+◌, ◌<◌, ◌≤◌, length};

use std::simd::Simd;

/// Copies bytes over as many others. A number of four or eight bytes and a tag with its length are moved without a call.
#[inline(always)]
pub(crate) fn copy_number(to: &mut [u8], from: &[u8])
    requires { length to.old ≡ length from.now }
    ensures { to.new ≡ from.now }
{
    if let Ok(number) = <[u8; 8]>::try_from(from) {
        to.copy_from_slice(&number);
    } else if let Ok(head) = <[u8; 5]>::try_from(from) {
        to.copy_from_slice(&head);
    } else if let Ok(number) = <[u8; 4]>::try_from(from) {
        to.copy_from_slice(&number);
    } else {
        copy_bytes(to, from);
    }
}

/// Copies bytes over as many others. It is out of line, since a caller knows the length of few texts.
#[inline(never)]
pub(crate) fn copy_bytes(to: &mut [u8], from: &[u8])
    requires { length to.old ≡ length from.now }
    ensures { to.new ≡ from.now }
{
    if from.len() > 16 {
        copy_many(to, from);
    } else if from.len() > 8 {
        copy_ends::<8>(to, from);
    } else if from.len() > 4 {
        copy_ends::<4>(to, from);
    } else if from.len() > 2 {
        copy_ends::<2>(to, from);
    } else if from.len() > 1 {
        copy_ends::<1>(to, from);
    } else if let [byte] = from {
        to[0] = *byte;
    }
}

#[inline(always)]
fn copy_many(to: &mut [u8], from: &[u8])
    requires many { 16 < length from.now }
    requires room { length to.old ≡ length from.now }
    ensures { to.new ≡ from.now }
{
    if from.len() <= 32 {
        copy_ends::<16>(to, from);
    } else if from.len() <= 64 {
        copy_ends::<32>(to, from);
    } else if from.len() <= 128 {
        copy_ends::<64>(to, from);
    } else {
        to.copy_from_slice(from);
    }
}

// The first N bytes and the last, which may be the same in part: two copies of a length that is known.
#[inline(always)]
fn copy_ends<const N: usize>(to: &mut [u8], from: &[u8])
    requires covers { (N < length from.now) × (length from.now ≤ N + N) }
    requires room { length to.old ≡ length from.now }
    ensures { to.new ≡ from.now }
{
    let last = from.len() - N;
    Simd::<u8, N>::from_slice(from).copy_to_slice(to);
    Simd::<u8, N>::from_slice(&from[last..]).copy_to_slice(&mut to[last..]);
}
