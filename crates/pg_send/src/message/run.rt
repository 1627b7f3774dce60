//! Runs of messages into one buffer.

ghost use Rattle.std.specs.Prelude.{◌≡◌, ◌<◌, ◌≤◌, [], ◌∷◌, length, replicate, Ok, OnErr, IfOk, IsOkUnless, vec_capacity};
ghost use Rattle.std.specs.Bool.{OnTrue, OnFalse};
ghost use Rattle.pg_base.specs.declared.error.Error.TheVariants.{OutOfMemory};
ghost use Rattle.pg_send.specs.Message.{message_of, messages_of};
ghost use Rattle.pg_send.specs.Run.{IsLimitAnswer, IsStrictAnswer, IsAnswerOf, EachRoundTrips, NoneRanOut, EncodesOne, IsMeantByTag, IsMeantIfItCan, OnAnswers, GivesRun, GivesRead, AddsOne, AddsRun, IsShortByRule};

use crate::message::TaggedMessage;
use pg_base::Error;
use std::alloc::Global;

/// Adds each message to the buffer in order, and gives one answer a message: that of
/// [`TaggedMessage::encode`]. A refused message adds nothing and doesn't stop the rest. By its tag and
/// body alone, each accepted message that can make the round trip is meant: numbered names as their
/// texts.
///
/// Memory is asked for once for the answers, and once, at the first message that the spare room
/// doesn't hold, for all that is left to add; where the second is refused, each message asks for its
/// own. Where room for the answers is refused, the call is `OutOfMemory` and changes nothing; no
/// messages need none.
#[tactic(auto, using(crate::proofs::RunLemmas::written_back, crate::proofs::RunLemmas::run_by_tag))]
pub fn encode_all(
    alloc: Global,
    messages: &[TaggedMessage<'_>],
    buf: &mut Vec<u8>,
) -> Result<Vec<Result<(), Error>>, Error>
    ensures run { GivesRun IsLimitAnswer (messages_of messages.now) buf.old buf.new result }
    // By the tag and the body of its frame alone, the page means each accepted message that can make the round trip.
    ensures by_tag { GivesRead IsMeantIfItCan (messages_of messages.now) buf.old buf.new result }
    ensures memory { IsOkUnless result OutOfMemory }
    ensures some { OnErr result (0 < length messages.now) }
    ensures err { OnErr result (buf.new ≡ buf.old) }
{
    let mut answers = all_accepted(alloc, messages.len())?;
    encode_each(messages, false, answers.as_mut_slice(), buf);
    Ok(answers)
}

/// As [`encode_all`], and refuses also each message that a reader wouldn't get back from its bytes,
/// as [`TaggedMessage::check_round_trip`] does: after the limits, and before memory is asked for.
pub fn encode_strict(
    alloc: Global,
    messages: &[TaggedMessage<'_>],
    buf: &mut Vec<u8>,
) -> Result<Vec<Result<(), Error>>, Error>
    ensures run { GivesRun IsStrictAnswer (messages_of messages.now) buf.old buf.new result }
    // A reader that is given the kinds gets back each accepted message.
    ensures round_trip { OnAnswers result (EachRoundTrips (messages_of messages.now)) }
    // And the page means each by the tag and the body of its frame alone.
    ensures by_tag { GivesRead IsMeantByTag (messages_of messages.now) buf.old buf.new result }
    ensures memory { IsOkUnless result OutOfMemory }
    ensures some { OnErr result (0 < length messages.now) }
    ensures err { OnErr result (buf.new ≡ buf.old) }
{
    let mut answers = all_accepted(alloc, messages.len())?;
    encode_each(messages, true, answers.as_mut_slice(), buf);
    Ok(answers)
}

// So many answers that accept.
#[inline(always)]
fn all_accepted(alloc: Global, count: usize) -> Result<Vec<Result<(), Error>>, Error>
    ensures all { IfOk result (λ answers. answers.items ≡ replicate count (Ok tt)) }
    ensures memory { IsOkUnless result OutOfMemory }
    ensures some { OnErr result (0 < count) }
{
    let mut answers = Vec::with_capacity(alloc, count)?;
    let filled = answers.resize(count, Ok(()));
    prove!(filled.is_ok());
    Ok(answers)
}

// Adds each message, and sets the answers of those that aren't added. An accepted one is not written, since it
// is there: it would be copied through memory. The first message that is within the limits and doesn't fit
// asks for the room of all that are left.
#[inline(always)]
fn encode_each(
    messages: &[TaggedMessage<'_>],
    strict: bool,
    answers: &mut [Result<(), Error>],
    buf: &mut Vec<u8>,
)
    requires { answers.old ≡ replicate (length messages.now) (Ok tt) }
    ensures { AddsRun strict (messages_of messages.now) answers.new buf.old buf.new }
{
    let mut asked = false;
    for index in 0..messages.len() {
        let message = &messages[index];
        if !put_by_rule(message, strict, buf) {
            let rest = &messages[index..];
            answers[index] = encode_unfit(message, rest, strict, &mut asked, buf);
        }
    }
}

// Adds a message that the rule accepts where the spare room holds it, and says whether it did.
#[inline(always)]
fn put_by_rule(message: &TaggedMessage<'_>, strict: bool, buf: &mut Vec<u8>) -> bool
    ensures put { OnTrue result (AddsOne strict (message_of message.now) buf.old buf.new) }
    ensures same { OnFalse result (buf.new ≡ buf.old) }
    // It is false only where the rule refuses the message or the spare room is short.
    ensures short { OnFalse result (IsShortByRule strict (message_of message.now) buf.old) }
{
    if strict {
        return message.put_if_read_back(buf);
    }
    message.put_if_fits(buf)
}

// A message that is refused, or for which there was no room.
#[cold]
#[inline(never)]
fn encode_unfit(
    message: &TaggedMessage<'_>,
    rest: &[TaggedMessage<'_>],
    strict: bool,
    asked: &mut bool,
    buf: &mut Vec<u8>,
) -> Result<(), Error>
    ensures { EncodesOne (IsAnswerOf strict) (message_of message.now) result buf.old buf.new }
{
    refuse_by_rule(message, strict)?;
    if !*asked {
        *asked = true;
        ask_for_all(rest, strict, buf);
    }
    message.encode(buf)
}

// Asks for the room of all messages that the rule accepts. Where it is refused, each asks for its own.
fn ask_for_all(messages: &[TaggedMessage<'_>], strict: bool, buf: &mut Vec<u8>)
    ensures items { buf.new.items ≡ buf.old.items }
    ensures capacity { vec_capacity buf.old ≤ vec_capacity buf.new }
{
    let mut room: usize = 0;
    for message in messages {
        room = room.saturating_add(room_by_rule(message, strict));
    }
    let _ = buf.reserve(room);
}

// The spare room that a message asks for, or none where the rule refuses it.
fn room_by_rule(message: &TaggedMessage<'_>, strict: bool) -> usize {
    if strict && message.check_round_trip().is_err() {
        return 0;
    }
    message.frame_room().unwrap_or(0)
}

// The refusal of a message where memory doesn't run out.
#[inline(always)]
fn refuse_by_rule(message: &TaggedMessage<'_>, strict: bool) -> Result<(), Error>
    ensures answer { IsAnswerOf strict (message_of message.now) result }
    ensures none_ran_out { NoneRanOut (result ∷ []) }
{
    message.frame_room()?;
    if strict {
        message.check_round_trip()?;
    }
    Ok(())
}
