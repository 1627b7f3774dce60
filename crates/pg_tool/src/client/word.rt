//! Words that a line of `encode` is made of.

use crate::fault::Fault;
use crate::numbers::u32_of;
use pg_base::io::{Oid, PgValueFormat};
use std::alloc::Global;

/// The formats that a word spells: `0` for text and `1` for binary, parted by commas, or `-` for
/// none. None where it spells no list.
pub fn formats_of(alloc: Global, word: &str) -> Result<Option<Vec<PgValueFormat>>, Fault> {
    let mut formats = Vec::new(alloc);
    if word == "-" {
        return Ok(Some(formats));
    }
    for code in word.split(',') {
        formats.push(match code {
            "0" => PgValueFormat::Text,
            "1" => PgValueFormat::Binary,
            _ => return Ok(None),
        })?;
    }
    Ok(Some(formats))
}

/// The types that a word spells: numbers of 32 bits, parted by commas, or `-` for none. None where
/// it spells no list.
pub fn oids_of(alloc: Global, word: &str) -> Result<Option<Vec<Oid>>, Fault> {
    let mut oids = Vec::new(alloc);
    if word == "-" {
        return Ok(Some(oids));
    }
    for number in word.split(',') {
        let Some(number) = u32_of(number) else {
            return Ok(None);
        };
        oids.push(Oid(number))?;
    }
    Ok(Some(oids))
}
