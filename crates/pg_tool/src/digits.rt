//! Bytes as hexadecimal digits.

use crate::fault::Fault;
use hex::FromHexError;
use std::alloc::Global;
use std::fmt;

/// Bytes, printed as lower hexadecimal digits, or as `-` where there are none.
#[derive(Clone, Copy)]
pub struct Hex<'a>(pub &'a [u8]);

impl<'a> fmt::Display for Hex<'a> {
    fn fmt<W: fmt::Write>(&self, f: &mut fmt::Formatter<W>) -> fmt::Result {
        if self.0.is_empty() {
            return write!(f, "-");
        }
        for byte in self.0 {
            write!(f, "{byte:02x}")?;
        }
        Ok(())
    }
}

/// The bytes that a word spells: an even number of hexadecimal digits of either case, at least two, or
/// `-` for no bytes. None where it spells none.
pub fn hex_bytes(alloc: Global, word: &str) -> Result<Option<Vec<u8>>, Fault> {
    if word == "-" {
        return Ok(Some(Vec::new(alloc)));
    }
    if word.is_empty() {
        return Ok(None);
    }
    match hex::decode(alloc, word) {
        Ok(bytes) => Ok(Some(bytes)),
        Err(FromHexError::OutOfMemory) => Err(Fault::OutOfMemory),
        Err(_) => Ok(None),
    }
}

/// The `N` bytes that a word of twice as many hexadecimal digits spells.
pub fn hex_array<const N: usize>(word: &str) -> Option<[u8; N]> {
    let mut bytes = [0; N];
    hex::decode_to_slice(word, &mut bytes).ok()?;
    Some(bytes)
}
