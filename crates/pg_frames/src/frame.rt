//! The message at the front of some bytes.

ghost use Rattle.std.specs.Prelude.{IfErr};
ghost use Rattle.pg_frames.specs.Frame.{IfFound, IfNotFound, LiesAtFront};
ghost use Rattle.pg_frames.specs.Stream.{WantsMore, IsStreamFault};

use crate::head::{FrameHead, MIN_LENGTH};
use pg_base::{BackendMessageFormat, ProtocolFault};

/// A whole message at the front of some bytes, where it lies.
#[derive(Clone, Copy)]
pub struct Frame<'a> {
    /// The kind, by the tag.
    pub format: BackendMessageFormat,
    /// The body, without tag and length.
    pub body: &'a [u8],
    /// What comes after the message.
    pub rest: &'a [u8],
}

/// The message at the front of the bytes, or `None` where it isn't whole yet. It is
/// `UnknownMessageType` where no message from a server has this tag, then `BadLength` where the
/// length is below 4; each as soon as five bytes are there, and whatever comes after them. It takes
/// no memory and copies nothing. Documentation: "Messaging Overview".
// Inlined, so that the frame isn't written to memory and read again.
#[inline(always)]
pub fn next_frame(stream: &[u8]) -> Result<Option<Frame<'_>>, ProtocolFault>
    ensures whole { IfFound result (LiesAtFront stream.now) }
    ensures part { IfNotFound result (WantsMore stream.now) }
    ensures fault { IfErr result (IsStreamFault stream.now) }
{
    let Some(head) = FrameHead::of(stream) else {
        return Ok(None);
    };
    let Ok(format) = BackendMessageFormat::try_from_u8(head.tag) else {
        return Err(ProtocolFault::UnknownMessageType(head.tag));
    };
    if head.announced < MIN_LENGTH {
        return Err(ProtocolFault::BadLength(head.announced));
    }
    let Some((body, rest)) = head.body_and_rest(stream) else {
        return Ok(None);
    };
    Ok(Some(Frame { format, body, rest }))
}
