//! The message at the front of a client's stream.

ghost use Rattle.std.specs.Prelude.{IfErr};
ghost use Rattle.pg_frames.specs.Frame.{IfFound, IfNotFound};
ghost use Rattle.pg_frames.specs.Frontend.Frame.{BeginsFirst, BeginsTagged, BeginsWith, Follows, IsFirstFault, IsStreamFault, IsTaggedFault, LiesBy, WantsMore, WantsMoreFirst, WantsMoreTagged};

use crate::frontend::message::ClientMessageKind;
use crate::head::{FrameHead, MIN_FIRST_LENGTH, MIN_LENGTH, first_length};
use pg_base::io::u32_at;
use pg_server::frontend::{FrontendFault, format_of};

/// The greatest length of a first message that PostgreSQL's own servers take. Their limit is 10,000 bytes after the
/// length field; this length, like the field, counts the field's four bytes too.
pub const MAX_FIRST_LENGTH: usize = 10_004;

// The codes of the first messages that another first message follows.
const SSL_REQUEST: u32 = 80877103;

const GSS_ENC_REQUEST: u32 = 80877104;

/// Which message comes next on a client's stream.
#[derive(Clone, Copy, Debug, PartialEq, Eq)]
pub enum Expects {
    /// A message without a tag, as at the start.
    First,
    /// A message with a tag.
    Tagged,
}

/// A whole message at the front of a client's stream, where it lies.
#[derive(Clone, Copy)]
pub struct FrontendFrame<'a> {
    /// The kind, by the tag and by what was expected.
    pub kind: ClientMessageKind,
    /// The body, without tag and length.
    pub body: &'a [u8],
    /// What comes after the message.
    pub rest: &'a [u8],
    /// Which message is expected there.
    pub next: Expects,
}

/// The message at the front of the bytes, or `None` where it isn't whole yet.
///
/// Of a first message the length is tested as soon as its four bytes are there: below 8 it is
/// `BadLength`, and above the limit `FirstTooLong`. After an SSLRequest or a GSSENCRequest, which its
/// code alone says, another first message is expected; after any other, messages with a tag. Of these
/// it is `UnknownTag` where no message from a client has the tag, then `BadLength` where the length is
/// below 4; each as soon as five bytes are there, and whatever comes after them. It takes no memory and
/// copies nothing. Documentation: "Messaging Overview", "Start-up", "SSL Session Encryption".
#[inline(always)]
pub fn next_frontend_frame(
    expects: Expects,
    limit: usize,
    stream: &[u8],
) -> Result<Option<FrontendFrame<'_>>, FrontendFault>
    ensures whole { IfFound result (LiesBy (BeginsWith limit expects) stream.now) }
    ensures part { IfNotFound result (WantsMore limit expects stream.now) }
    ensures fault { IfErr result (IsStreamFault limit expects stream.now) }
{
    match expects {
        Expects::First => next_first(limit, stream),
        Expects::Tagged => next_tagged(stream),
    }
}

// The first message at the front.
fn next_first(limit: usize, stream: &[u8]) -> Result<Option<FrontendFrame<'_>>, FrontendFault>
    ensures whole { IfFound result (LiesBy (BeginsFirst limit) stream.now) }
    ensures part { IfNotFound result (WantsMoreFirst limit stream.now) }
    ensures fault { IfErr result (IsFirstFault limit stream.now) }
{
    let Some(announced) = first_length(stream) else {
        return Ok(None);
    };
    if announced < MIN_FIRST_LENGTH {
        return Err(FrontendFault::BadLength(announced));
    }
    let length = announced as usize;
    if length > limit {
        return Err(FrontendFault::FirstTooLong { length, limit });
    }
    let Some((body, rest)) = stream[4..].split_at_checked(length - 4) else {
        return Ok(None);
    };
    Ok(Some(FrontendFrame {
        kind: ClientMessageKind::First,
        body,
        rest,
        next: after_first(body),
    }))
}

/// What is expected after a first message with this body: after an SSLRequest or a GSSENCRequest, which its
/// code alone says, another one, and after any other a message with a tag.
#[tactic(auto, using(crate::proofs::FrontendFrameLemmas::asks_for_none))]
pub fn after_first(body: &[u8]) -> Expects
    ensures { Follows body.now result }
{
    let Ok(code) = u32_at(body, 0) else {
        return Expects::Tagged;
    };
    if code == SSL_REQUEST || code == GSS_ENC_REQUEST {
        Expects::First
    } else {
        Expects::Tagged
    }
}

// The message with a tag at the front.
fn next_tagged(stream: &[u8]) -> Result<Option<FrontendFrame<'_>>, FrontendFault>
    ensures whole { IfFound result (LiesBy BeginsTagged stream.now) }
    ensures part { IfNotFound result (WantsMoreTagged stream.now) }
    ensures fault { IfErr result (IsTaggedFault stream.now) }
{
    let Some(head) = FrameHead::of(stream) else {
        return Ok(None);
    };
    let Some(format) = format_of(head.tag) else {
        return Err(FrontendFault::UnknownTag(head.tag));
    };
    if head.announced < MIN_LENGTH {
        return Err(FrontendFault::BadLength(head.announced));
    }
    let Some((body, rest)) = head.body_and_rest(stream) else {
        return Ok(None);
    };
    Ok(Some(FrontendFrame {
        kind: ClientMessageKind::Tagged(format),
        body,
        rest,
        next: Expects::Tagged,
    }))
}
