//! What a program reads, and what it writes.

use crate::fault::Fault;
use std::alloc::Global;
use std::io::{Read, Write};

/// Reads an input to its end.
pub fn read_all<R: Read>(alloc: Global, input: &mut R) -> Result<Vec<u8>, Fault> {
    let mut bytes = Vec::new(alloc);
    match input.read_to_end(&mut bytes) {
        Ok(_) => Ok(bytes),
        Err(error) => Err(Fault::of_read(error)),
    }
}

/// Writes a text and passes it on, so that it can be seen before the program reads again.
pub fn write_text<W: Write>(output: &mut W, text: &str) -> Result<(), Fault> {
    if output.write_all(text.as_bytes()).is_err() || output.flush().is_err() {
        return Err(Fault::Output);
    }
    Ok(())
}
