//! A message of the whole protocol at the front of some bytes.

ghost use Rattle.std.specs.Prelude.{IfErr};
ghost use Rattle.pg_frames.specs.Frame.{IfFound, IfNotFound};
ghost use Rattle.pg_frames.specs.ProtocolFrame.{ProtocolLiesAtFront, WantsMore, IsStreamFault};

use crate::head::{FrameHead, MIN_LENGTH};
use pg_base::ProtocolFault;
use pg_format::ProtocolMessageKind;

/// A whole message of any of the 24 kinds at the front of some bytes, where it lies.
#[derive(Clone, Copy)]
pub struct ProtocolFrame<'a> {
    /// The kind, by the tag.
    pub kind: ProtocolMessageKind,
    /// The body, without tag and length.
    pub body: &'a [u8],
    /// What comes after the message.
    pub rest: &'a [u8],
}

/// The message at the front of the bytes, or `None` where it isn't whole yet, as
/// [`next_frame`](crate::next_frame), but of any of the 24 kinds that the documentation has. It is
/// `UnknownMessageType` where no message from a server has this tag, then `BadLength` where the length is
/// below 4; each as soon as five bytes are there. Documentation: "Messaging Overview".
// Inlined, so that the frame isn't written to memory and read again.
#[inline(always)]
pub fn next_protocol_frame(stream: &[u8]) -> Result<Option<ProtocolFrame<'_>>, ProtocolFault>
    ensures whole { IfFound result (ProtocolLiesAtFront stream.now) }
    ensures part { IfNotFound result (WantsMore stream.now) }
    ensures fault { IfErr result (IsStreamFault stream.now) }
{
    let Some(head) = FrameHead::of(stream) else {
        return Ok(None);
    };
    let Some(kind) = ProtocolMessageKind::of_tag(head.tag) else {
        return Err(ProtocolFault::UnknownMessageType(head.tag));
    };
    if head.announced < MIN_LENGTH {
        return Err(ProtocolFault::BadLength(head.announced));
    }
    let Some((body, rest)) = head.body_and_rest(stream) else {
        return Ok(None);
    };
    Ok(Some(ProtocolFrame { kind, body, rest }))
}
