//! A piece of a stream passed on, with its user's answers.

ghost use Rattle.std.specs.Prelude.{◌≡◌, ◌≤◌, ◌++◌, ℕ, List, [], Option, OnOk, IfErr, OnErr, vec_capacity};
ghost use Rattle.pg_frames.specs.declared.frontend.frame.Expects.{Expects};
ghost use Rattle.pg_frames.specs.Pieces.{joined};
ghost use Rattle.pg_frames.specs.declared.relay.answer.Answer.{Answer};
ghost use Rattle.pg_frames.specs.declared.relay.answer.Answer.TheVariants.{Keep};
ghost use Rattle.pg_frames.specs.Relay.Pass.{GivesAnswer, IsTooSmall, Keeps, Passed, PutsAnswer, PutsOut, conduct_of, standing_of};
ghost use Rattle.pg_frames.specs.Relay.Pass.Stops.{AnswerStops, EventStops, Stops, StopsIn, asked_frame};

use crate::frontend::Expects;
use crate::relay::Relay;
use crate::relay::answer::Answer;
use crate::relay::error::RelayError;
use crate::relay::event::{Event, Step};
use crate::relay::wants::{All, Wants};
use pg_base::io::Sink;
use std::alloc::{AllocError, Global};

/// Answers each frame that it wants whole. It may change as it answers, also which frames it wants after that.
pub trait Answers: Wants {
    /// What it may answer for a frame, what it may add, and what it may be then.
    ghost answers: { Self → Option ℕ → List ℕ → Answer → List ℕ → Self → Type 0 };

    /// The frames for whose answer it may find no memory, and what it may be then.
    ghost exhausts: { Self → Option ℕ → List ℕ → Self → Type 0 };

    /// Answers a frame with this tag, or none, and these bytes, tag and length among them, and writes what it adds.
    fn answer(
        &mut self,
        tag: Option<u8>,
        frame: &[u8],
        added: &mut Vec<u8>,
    ) -> Result<Answer, AllocError>
        requires { added.old.items ≡ [] }
        ensures answers { GivesAnswer answers self.old tag frame.now added.new self.new result }
        ensures exhausts { OnErr result (exhausts self.old tag frame.now self.new) };
}

/// Keeps every frame.
impl Answers for All {
    ghost answers = { λ user _ _ answer _ later. (answer ≡ Keep) × (later ≡ user) };

    ghost exhausts = { λ _ _ _ _. ⊥ };

    fn answer(
        &mut self,
        _tag: Option<u8>,
        _frame: &[u8],
        _added: &mut Vec<u8>,
    ) -> Result<Answer, AllocError> {
        Ok(Answer::Keep)
    }
}

/// Passes a piece of a stream on: adds to `out` the frames that came, or what their user put in their places, and the
/// parts of frames that the user doesn't want whole. The bytes that `out` held before stay in front of them, so `out`
/// may be written and cleared between two calls, and may hold bytes of the caller's own, such as a server's answer to
/// a request for encryption. Where no frame is changed, what went out and what the relay holds is what came.
///
/// The limit stays, and so does the room that `out` has. What the relay holds is the front of a frame that its user
/// wants whole.
///
/// An error is that of [`Relay::next`] at what comes next, or of [`Answer::place`] at the user's answer, or it is
/// `OutOfMemory`, where the answer found none or `out` has no room for what goes out next. `out` then holds the bytes
/// that it held before, and after them what went out for all that came before. After an error the connection is at its
/// end, since what comes next can't be known.
pub fn pass_piece<U: Answers>(
    alloc: Global,
    relay: &mut Relay,
    user: &mut U,
    piece: &[u8],
    out: &mut Vec<u8>,
) -> Result<(), RelayError>
    ensures keeps { Keeps (conduct_of U.wanted U.answers U.exhausts)
        (standing_of user.old relay.old out.old) (standing_of user.new relay.new out.new) }
    ensures passed { OnOk result (Passed (conduct_of U.wanted U.answers U.exhausts)
        (standing_of user.old relay.old out.old) piece.now
        (standing_of user.new relay.new out.new)) }
    ensures stops { IfErr result (Stops (conduct_of U.wanted U.answers U.exhausts)
        (standing_of user.old relay.old out.old) piece.now
        (standing_of user.new relay.new out.new)) }
{
    let mut rest = piece;
    while !rest.is_empty() {
        let expects = relay.expects();
        let Step { event, rest: after } = relay.next(&*user, rest)?;
        put_out(alloc, user, expects, event, relay.expects(), out)?;
        rest = after;
    }
    Ok(())
}

/// Passes a stream on that is there in pieces, one after the other, as [`pass_piece`] does each.
pub fn pass_pieces<U: Answers>(
    alloc: Global,
    relay: &mut Relay,
    user: &mut U,
    pieces: &[&[u8]],
    out: &mut Vec<u8>,
) -> Result<(), RelayError>
    ensures keeps { Keeps (conduct_of U.wanted U.answers U.exhausts)
        (standing_of user.old relay.old out.old) (standing_of user.new relay.new out.new) }
    ensures passed { OnOk result (Passed (conduct_of U.wanted U.answers U.exhausts)
        (standing_of user.old relay.old out.old) (joined pieces.now)
        (standing_of user.new relay.new out.new)) }
    ensures stops { IfErr result (StopsIn (conduct_of U.wanted U.answers U.exhausts)
        (standing_of user.old relay.old out.old) pieces.now
        (standing_of user.new relay.new out.new)) }
{
    for piece in pieces {
        pass_piece(alloc, relay, user, piece, out)?;
    }
    Ok(())
}

// Adds what goes out for what came.
#[inline(always)]
fn put_out<U: Answers>(
    alloc: Global,
    user: &mut U,
    expects: Expects,
    event: Event<'_>,
    next: Expects,
    out: &mut Vec<u8>,
) -> Result<(), RelayError>
    ensures puts { OnOk result
        (PutsOut U.answers user.old expects event.entry next user.new out.old.items out.new.items) }
    ensures stops { IfErr result (EventStops (conduct_of U.wanted U.answers U.exhausts) user.old
        expects event.entry next user.new out.old.items out.new) }
    ensures same { OnErr result (out.new.items ≡ out.old.items) }
    ensures capacity { vec_capacity out.old ≤ vec_capacity out.new }
{
    match event {
        Event::Frame { tag, bytes } => {
            put_answer(alloc, user, expects, tag, bytes.as_slice(), next, out)
        }
        Event::Part { bytes, .. } => {
            add_both(out, bytes.as_slice(), &[])?;
            Ok(())
        }
        Event::Held => Ok(()),
    }
}

// Adds what goes out in a frame's place.
#[inline(always)]
fn put_answer<U: Answers>(
    alloc: Global,
    user: &mut U,
    expects: Expects,
    tag: Option<u8>,
    frame: &[u8],
    next: Expects,
    out: &mut Vec<u8>,
) -> Result<(), RelayError>
    ensures puts { OnOk result
        (PutsAnswer U.answers user.old expects tag frame.now next user.new
        out.old.items out.new.items) }
    ensures stops { IfErr result (AnswerStops (conduct_of U.wanted U.answers U.exhausts) user.old
        (asked_frame expects tag frame.now next) user.new out.old.items out.new) }
    ensures same { OnErr result (out.new.items ≡ out.old.items) }
    ensures capacity { vec_capacity out.old ≤ vec_capacity out.new }
{
    let mut added = Vec::new(alloc);
    let answer = user.answer(tag, frame, &mut added)?;
    let (first, second) = answer.place(expects, frame, next, added.as_slice())?;
    add_both(out, first, second)?;
    Ok(())
}

// Adds both, one after the other, or nothing.
#[inline(always)]
fn add_both(out: &mut Vec<u8>, first: &[u8], second: &[u8]) -> Result<(), AllocError>
    ensures added { OnOk result (out.new.items ≡ out.old.items ++ (first.now ++ second.now)) }
    ensures same { OnErr result (out.new.items ≡ out.old.items) }
    ensures full { OnErr result (IsTooSmall out.new (out.old.items ++ (first.now ++ second.now))) }
    ensures capacity { vec_capacity out.old ≤ vec_capacity out.new }
{
    out.reserve(first.len() + second.len())?;
    out.put_slice(first);
    out.put_slice(second);
    Ok(())
}
