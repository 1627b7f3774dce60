//! The messages at the front of a stream.

ghost use Rattle.std.specs.Prelude.{◌≡◌, ◌+◌, ◌<◌, ◌≤◌, ◌<ℤ◌, ◌≤ℤ◌, ℕ, List, pos, drop, length, get_or, IfOk, IfErr};
ghost use Rattle.pg_frames.specs.Stream.Raw.{WantsMore, HasBadLength};
ghost use Rattle.pg_c.specs.Read.{IfRead, IfCount, LeavesEither};
ghost use Rattle.pg_c.specs.Read.Frame.{HasFrame, IsWhole, Needs, ReadsFrames, StandsAt};
ghost use Rattle.pg_c.specs.Refusal.{RefusesFor};

use crate::place::PgmsgSpan;
use crate::refusal::{PgmsgFault, report};
use pg_base::ProtocolFault;
use pg_frames::{FrameHead, RawFrame, next_raw_frame};
use std::alloc::Global;

/// The bytes before a body: the tag and the length.
pub(crate) const HEADER: usize = 5;

/// A message at the front of a stream. `length` is how many bytes of the stream it takes; where it isn't
/// whole, how many are needed at least.
#[repr(C)]
#[derive(Clone, Copy)]
pub struct PgmsgFrame {
    pub tag: u8,
    pub body: PgmsgSpan,
    pub length: usize,
}

/// The message at the front of a stream, of any tag: 1 where it is whole, 0 where more bytes are needed; then `tag` is
/// given as soon as its byte is there. A length below 4 is refused, whatever bytes come after it.
#[unsafe(no_mangle)]
pub extern "C" fn pgmsg_next_frame(
    alloc: Global,
    stream: &[u8],
    frame: &mut PgmsgFrame,
    fault: &mut PgmsgFault,
) -> i32
    ensures result { result ≤ℤ pos 1 }
    ensures whole { result ≡ pos 1 → IsWhole stream.now frame.new }
    ensures part { result ≡ pos 0 → Needs stream.now frame.new.length }
    ensures part_tag { result ≡ pos 0 → frame.new.tag ≡ get_or stream.now 0 frame.old.tag }
    ensures part_alone { result ≡ pos 0 → frame.new.body ≡ frame.old.body }
    ensures fault { RefusesFor (HasBadLength stream.now) fault.old fault.new result }
    ensures left { LeavesEither fault.old fault.new frame.old frame.new result }
{
    match next_raw_frame(stream) {
        Ok(Some(whole)) => {
            *frame = place_of_frame(&whole);
            1
        }
        Ok(None) => {
            if !stream.is_empty() {
                frame.tag = stream[0];
            }
            frame.length = needed(stream);
            0
        }
        Err(why) => report(alloc, why.into(), fault),
    }
}

/// The messages at the front of a stream, of any tag, each as `pgmsg_next_frame` gives it, with places in the whole
/// stream. Returns how many were written: as many as are whole and have room in `frames`. The next message begins
/// where the lengths of these end. Where there is room for a message and the length of the very first is below 4, the
/// call refuses; such a length after other messages only ends them.
#[unsafe(no_mangle)]
pub extern "C" fn pgmsg_next_frames(
    alloc: Global,
    stream: &[u8],
    frames: &mut [PgmsgFrame],
    fault: &mut PgmsgFault,
) -> isize
    ensures frames { IfRead result (ReadsFrames stream.now frames.old frames.new) }
    ensures fault { RefusesFor (HasBadLength stream.now) fault.old fault.new result }
    ensures room { result <ℤ pos 0 → 0 < length frames.old }
    ensures left { LeavesEither fault.old fault.new frames.old frames.new result }
{
    match frames_of(stream, frames) {
        Ok(count) => count as isize,
        Err(why) => report(alloc, why.into(), fault) as isize,
    }
}

fn frames_of(stream: &[u8], frames: &mut [PgmsgFrame]) -> Result<usize, ProtocolFault>
    ensures small { IfOk result (λ count. count < 9223372036854775808) }
    ensures frames { IfCount result (ReadsFrames stream.now frames.old frames.new) }
    ensures fault { IfErr result (HasBadLength stream.now) }
    ensures room { IfErr result (λ _. 0 < length frames.old) }
    ensures kept { IfErr result (λ _. frames.new ≡ frames.old) }
{
    let mut at: usize = 0;
    for count in 0..frames.len() {
        match next_raw_frame(&stream[at..]) {
            Ok(Some(whole)) => {
                let place = placed(stream, at, &whole);
                frames[count] = place;
                at += place.length;
            }
            Ok(None) => return Ok(count),
            Err(why) => return if count == 0 { Err(why) } else { Ok(count) },
        }
    }
    Ok(frames.len())
}

// Where the message that begins at an offset is.
fn placed(stream: &[u8], at: usize, frame: &RawFrame<'_>) -> PgmsgFrame
    requires within { at ≤ length stream.now }
    requires begins { HasFrame (drop at stream.now) frame.now }
    ensures stands { StandsAt stream.now at result }
    ensures inside { at + result.length ≤ length stream.now }
    ensures least { 5 ≤ result.length }
{
    PgmsgFrame {
        tag: frame.tag,
        body: PgmsgSpan {
            at: at + HEADER,
            len: frame.body.len(),
        },
        length: HEADER + frame.body.len(),
    }
}

// Where the message at the front is.
fn place_of_frame(frame: &RawFrame<'_>) -> PgmsgFrame
    ensures { (stream : List ℕ) → HasFrame stream frame.now → IsWhole stream result }
{
    PgmsgFrame {
        tag: frame.tag,
        body: PgmsgSpan {
            at: HEADER,
            len: frame.body.len(),
        },
        length: HEADER + frame.body.len(),
    }
}

/// How many bytes the message at the front needs.
pub(crate) fn needed(stream: &[u8]) -> usize
    requires { WantsMore stream.now }
    ensures { Needs stream.now result }
{
    match FrameHead::of(stream) {
        Some(head) => 1 + head.announced.unsigned_abs() as usize,
        None => HEADER,
    }
}
