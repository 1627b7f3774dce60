//! A message of any tag at the front of some bytes.

ghost use Rattle.std.specs.Prelude.{IfErr};
ghost use Rattle.pg_frames.specs.Frame.{IfFound, IfNotFound};
ghost use Rattle.pg_frames.specs.Stream.Raw.{WantsMore, HasBadLength, RawLiesAtFront};

use crate::head::{FrameHead, MIN_LENGTH};
use pg_base::ProtocolFault;

/// A whole message of any tag at the front of some bytes, where it lies.
#[derive(Drop)]
pub struct RawFrame<'a> {
    /// The tag.
    pub tag: u8,
    /// The body, without tag and length.
    pub body: &'a [u8],
    /// What comes after the message.
    pub rest: &'a [u8],
}

/// The message at the front of the bytes, or `None` where it isn't whole yet, as
/// [`next_frame`](crate::next_frame) but of any tag, also one that no server is known to send. It is
/// `BadLength` where the length is below 4. Documentation: "Messaging Overview".
pub fn next_raw_frame(stream: &[u8]) -> Result<Option<RawFrame<'_>>, ProtocolFault>
    ensures whole { IfFound result (RawLiesAtFront stream.now) }
    ensures part { IfNotFound result (WantsMore stream.now) }
    ensures fault { IfErr result (HasBadLength stream.now) }
{
    let Some(head) = FrameHead::of(stream) else {
        return Ok(None);
    };
    if head.announced < MIN_LENGTH {
        return Err(ProtocolFault::BadLength(head.announced));
    }
    let Some((body, rest)) = head.body_and_rest(stream) else {
        return Ok(None);
    };
    Ok(Some(RawFrame {
        tag: head.tag,
        body,
        rest,
    }))
}
