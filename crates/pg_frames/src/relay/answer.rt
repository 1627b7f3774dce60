//! What goes out in a frame's place.

ghost use Rattle.std.specs.Prelude.{◌≡◌, IfOk, IfErr, IfSome, IfNone, Decides};
ghost use Rattle.pg_frames.specs.declared.frontend.frame.Expects.{Expects};
ghost use Rattle.pg_frames.specs.Relay.Answer.{ArePlaced, Fits, IsMisfit, IsRun};

use crate::frontend::Expects;
use crate::relay::error::RelayError;
use crate::relay::head::{head_of, next_after};

/// What its user answers for a whole frame. The bytes that are added are given beside the answer.
#[derive(Clone, Copy, Debug, PartialEq, Eq)]
pub enum Answer {
    /// It goes out as it came.
    Keep,
    /// Nothing goes out in its place.
    Omit,
    /// The frames that are added go out in its place.
    Replace,
    /// The frames that are added go out, and then the frame.
    AddBefore,
    /// The frame goes out, and then the frames that are added.
    AddAfter,
}

impl Answer {
    /// The bytes that go out in the frame's place, which are these two one after the other, where what is added
    /// is a run of whole frames, so that the receiver reads each frame as it is meant: else it is `NotFrames`.
    /// What is expected where the frame stands and what is expected after it is what
    /// [`Relay::expects`](crate::relay::Relay::expects) gives before and after the frame.
    pub fn place<'a>(
        self,
        expects: Expects,
        frame: &'a [u8],
        next: Expects,
        added: &'a [u8],
    ) -> Result<(&'a [u8], &'a [u8]), RelayError>
        ensures placed { IfOk result (ArePlaced self frame.now added.now) }
        ensures fits { IfOk result (λ _. Fits self expects added.now next) }
        ensures refused { IfErr result (IsMisfit self expects added.now next) }
    {
        if !fits(self, expects, added, next) {
            return Err(RelayError::NotFrames);
        }
        Ok(match self {
            Answer::Keep => (frame, &[]),
            Answer::Omit => (&[], &[]),
            Answer::Replace => (added, &[]),
            Answer::AddBefore => (added, frame),
            Answer::AddAfter => (frame, added),
        })
    }
}

// Whether what is added leads from what is expected to what is expected after it.
fn fits(answer: Answer, expects: Expects, added: &[u8], next: Expects) -> bool
    ensures { Decides result (Fits answer expects added.now next) }
{
    match answer {
        Answer::Keep => true,
        Answer::Omit => expects == next,
        Answer::Replace => leads(expects, added, next),
        Answer::AddBefore => leads(expects, added, expects),
        Answer::AddAfter => leads(next, added, next),
    }
}

// Whether the bytes are whole frames from what is expected to that.
fn leads(expects: Expects, bytes: &[u8], last: Expects) -> bool
    ensures { Decides result (IsRun expects bytes.now last) }
{
    match end_of_run(expects, bytes) {
        Some(end) => is_same(end, last),
        None => false,
    }
}

// Whether both are the same.
fn is_same(a: Expects, b: Expects) -> bool
    ensures { Decides result (a ≡ b) }
{
    a == b
}

/// What is expected after some frames, where the bytes are these one after the other, the first as it is expected;
/// or `None` where they aren't.
pub fn end_of_run(expects: Expects, bytes: &[u8]) -> Option<Expects>
    ensures run { IfSome result (IsRun expects bytes.now) }
    ensures none { IfNone result ((last : Expects) → ¬ (IsRun expects bytes.now last)) }
{
    let mut state = expects;
    let mut rest = bytes;
    while !rest.is_empty() {
        let head = match head_of(state, rest) {
            Ok(Some(head)) => head,
            Ok(None) => return None,
            Err(_) => return None,
        };
        let Some((frame, after)) = rest.split_at_checked(head.count) else {
            return None;
        };
        state = next_after(state, frame);
        rest = after;
    }
    Some(state)
}
