//! How a frame begins: its tag, and how many bytes it has.

ghost use Rattle.std.specs.Prelude.{◌≡◌, ◌≤◌, ◌<◌, length, IfErr};
ghost use Rattle.pg_frames.specs.Frame.{IfFound, IfNotFound};
ghost use Rattle.pg_frames.specs.declared.frontend.frame.Expects.TheVariants.{First, Tagged};
ghost use Rattle.pg_frames.specs.Relay.Head.{HasHead, IsNext, head_length};
ghost use Rattle.pg_frames.specs.Relay.{IsHeadFault};

use crate::frontend::{Expects, after_first};
use crate::head::{FrameHead, HEADER, LENGTH, MIN_FIRST_LENGTH, MIN_LENGTH, first_length};
use crate::relay::error::RelayError;

/// How a frame begins.
#[derive(Clone, Copy)]
pub(crate) struct Head {
    /// The tag, or none where it is a first message.
    pub(crate) tag: Option<u8>,
    /// How many bytes it has, with tag and length.
    pub(crate) count: usize,
}

/// How the frame at the front of the bytes begins, or `None` where too few bytes are there to tell.
#[inline(always)]
pub(crate) fn head_of(expects: Expects, bytes: &[u8]) -> Result<Option<Head>, RelayError>
    ensures known { IfFound result (λ head. HasHead expects bytes.now head.tag head.count) }
    ensures unknown { IfNotFound result (length bytes.now < head_length expects) }
    ensures fault { IfErr result (IsHeadFault expects bytes.now) }
{
    match expects {
        Expects::First => first_head(bytes),
        Expects::Tagged => tagged_head(bytes),
    }
}

// The head of a first message.
fn first_head(bytes: &[u8]) -> Result<Option<Head>, RelayError>
    ensures known { IfFound result (λ head. HasHead First bytes.now head.tag head.count) }
    ensures unknown { IfNotFound result (length bytes.now < 4) }
    ensures fault { IfErr result (IsHeadFault First bytes.now) }
{
    let Some(announced) = first_length(bytes) else {
        return Ok(None);
    };
    if announced < MIN_FIRST_LENGTH {
        return Err(RelayError::BadLength(announced));
    }
    Ok(Some(Head {
        tag: None,
        count: announced as usize,
    }))
}

// The head of a message with a tag.
#[inline(always)]
fn tagged_head(bytes: &[u8]) -> Result<Option<Head>, RelayError>
    ensures known { IfFound result (λ head. HasHead Tagged bytes.now head.tag head.count) }
    ensures unknown { IfNotFound result (length bytes.now < 5) }
    ensures fault { IfErr result (IsHeadFault Tagged bytes.now) }
{
    let Some(FrameHead { tag, announced }) = FrameHead::of(bytes) else {
        return Ok(None);
    };
    if announced < MIN_LENGTH {
        return Err(RelayError::BadLength(announced));
    }
    Ok(Some(Head {
        tag: Some(tag),
        count: announced as usize + 1,
    }))
}

/// How many bytes a head has.
pub(crate) fn length_of_head(expects: Expects) -> usize
    ensures { result ≡ head_length expects }
{
    match expects {
        Expects::First => LENGTH,
        Expects::Tagged => HEADER,
    }
}

/// What is expected after a frame.
#[inline(always)]
pub(crate) fn next_after(expects: Expects, frame: &[u8]) -> Expects
    requires { head_length expects ≤ length frame.now }
    ensures { IsNext expects frame.now result }
{
    match expects {
        Expects::First => after_first(&frame[LENGTH..]),
        Expects::Tagged => Expects::Tagged,
    }
}
