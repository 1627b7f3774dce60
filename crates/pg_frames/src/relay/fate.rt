//! What becomes of the frame at the front.

ghost use Rattle.std.specs.Prelude.{IfOk, IfErr};
ghost use Rattle.pg_frames.specs.Relay.{HasFate, IsFault};

use crate::frontend::Expects;
use crate::relay::error::RelayError;
use crate::relay::head::{Head, head_of};
use crate::relay::wants::{Wants, wants_whole};

/// What becomes of a frame.
#[derive(Clone, Copy)]
pub(crate) enum Fate {
    /// Too few of its bytes are there to tell.
    Unknown,
    /// It is passed on in parts, so many bytes in all.
    Parts(usize),
    /// It is taken whole: its tag, and how many bytes it has.
    Whole(Option<u8>, usize),
}

/// What becomes of the frame at the front of the bytes.
#[inline(always)]
pub(crate) fn fate_of<W: Wants>(
    wants: &W,
    limit: usize,
    expects: Expects,
    bytes: &[u8],
) -> Result<Fate, RelayError>
    ensures fate { IfOk result (HasFate (W.wanted wants.now) limit expects bytes.now) }
    ensures fault { IfErr result (IsFault (W.wanted wants.now) limit expects bytes.now) }
{
    let Some(Head { tag, count }) = head_of(expects, bytes)? else {
        return Ok(Fate::Unknown);
    };
    if !wants_whole(wants, tag, count) {
        return Ok(Fate::Parts(count));
    }
    if count > limit {
        return Err(RelayError::TooLong {
            length: count,
            limit,
        });
    }
    Ok(Fate::Whole(tag, count))
}
