//! The frames of some messages, as lines.

ghost use Rattle.std.specs.Prelude.{length};
ghost use Rattle.std.specs.Iterator.{at_most};

use crate::digits::Hex;
use pg_frames::{RawFrame, next_raw_frame};
use std::alloc::AllocError;

/// The bytes of a length field, which counts itself.
const LENGTH_FIELD: usize = 4;

/// Adds a line for each frame: the tag as a character, the length field, and the body.
pub fn push_frames(frames: &[u8], output: &mut String) -> Result<(), AllocError> {
    for RawFrame { tag, body, .. } in (Frames { rest: frames }) {
        let length = body.len().saturating_add(LENGTH_FIELD);
        writeln!(output, "{} {length} {}", char::from(tag), Hex(body))?;
    }
    Ok(())
}

/// The messages of a buffer, one after the other.
#[derive(Drop)]
struct Frames<'a> {
    rest: &'a [u8],
}

impl<'a> Iterator for Frames<'a> {
    type Item = RawFrame<'a>;

    ghost remaining = { λ frames. at_most (length frames.rest.now) };

    fn next(&mut self) -> Option<RawFrame<'a>> {
        let frame = next_raw_frame(self.rest).ok()??;
        self.rest = frame.rest;
        Some(frame)
    }
}
