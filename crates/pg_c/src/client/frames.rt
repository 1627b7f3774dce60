//! The message at the front of a client's stream.

ghost use Rattle.std.specs.Prelude.{◌≡◌, ◌≤ℤ◌, ℕ, pos, get_or};
ghost use Rattle.pg_frames.specs.Frontend.Frame.{IsFirstFault, IsTaggedFault, WantsMoreFirst};
ghost use Rattle.pg_c.specs.Client.Frames.{HasTaggedFrame, IsWhole, IsWholeFirst, IsFirstPlace, Needs, NeedsFirst};
ghost use Rattle.pg_c.specs.Read.{LeavesEither};
ghost use Rattle.pg_c.specs.Refusal.{RefusesClientFor};

use crate::place::PgmsgSpan;
use crate::read::frame::{HEADER, PgmsgFrame, needed};
use crate::refusal::{PgmsgFault, report_client};
use pg_frames::first_length;
use pg_frames::frontend::{Expects, FrontendFrame, next_frontend_frame};
use std::alloc::Global;

// The bytes before the body of a first message: the length.
const LENGTH: usize = 4;

/// The greatest length of a first message that PostgreSQL's servers take.
pub const MAX_FIRST_LENGTH: i32 = 10004;

/// The first message of a connection at the front of a stream, or the one after an SSLRequest or a
/// GSSENCRequest: 1 where it is whole, 0 where more bytes are needed. It has no tag: where it is whole,
/// `tag` is 0, and `length` that of its length and its body. A length below 8 or above `limit`, which is
/// PGMSG_MAX_FIRST_LENGTH for PostgreSQL's own servers, is refused, whatever bytes come after it.
#[unsafe(no_mangle)]
pub extern "C" fn pgmsg_next_first_frame(
    alloc: Global,
    stream: &[u8],
    limit: usize,
    frame: &mut PgmsgFrame,
    fault: &mut PgmsgFault,
) -> i32
    ensures result { result ≤ℤ pos 1 }
    ensures whole { result ≡ pos 1 → IsWholeFirst limit stream.now frame.new }
    ensures part { result ≡ pos 0 → NeedsFirst limit stream.now frame.new.length }
    ensures part_tag { result ≡ pos 0 → frame.new.tag ≡ frame.old.tag }
    ensures part_alone { result ≡ pos 0 → frame.new.body ≡ frame.old.body }
    ensures fault { RefusesClientFor (IsFirstFault limit stream.now) fault.old fault.new result }
    ensures left { LeavesEither fault.old fault.new frame.old frame.new result }
{
    match next_frontend_frame(Expects::First, limit, stream) {
        Ok(Some(whole)) => {
            *frame = first_place_of(&whole);
            1
        }
        Ok(None) => {
            frame.length = needed_first(stream);
            0
        }
        Err(why) => report_client(alloc, why, fault),
    }
}

// Where the first message at the front is.
#[tactic(auto, using(crate::proofs::ClientFramesLemmas::first_at, crate::proofs::ClientFramesLemmas::stands_first))]
fn first_place_of(frame: &FrontendFrame<'_>) -> PgmsgFrame
    ensures { IsFirstPlace frame.now result }
{
    PgmsgFrame {
        tag: 0,
        body: PgmsgSpan {
            at: LENGTH,
            len: frame.body.len(),
        },
        length: LENGTH + frame.body.len(),
    }
}

// How many bytes the first message at the front needs.
fn needed_first(stream: &[u8]) -> usize
    ensures { (limit : ℕ) → WantsMoreFirst limit stream.now → NeedsFirst limit stream.now result }
{
    match first_length(stream) {
        Some(announced) => announced.unsigned_abs() as usize,
        None => LENGTH,
    }
}

/// The message at the front of a stream from a client, after the first ones: 1 where it is whole, 0 where
/// more bytes are needed; then `tag` is given as soon as its byte is there. A tag that no message from a client has, or
/// a length below 4, is refused, whatever bytes come after it.
#[unsafe(no_mangle)]
#[tactic(auto, using(crate::proofs::ClientFramesLemmas::needs_tagged))]
pub extern "C" fn pgmsg_next_frontend_frame(
    alloc: Global,
    stream: &[u8],
    frame: &mut PgmsgFrame,
    fault: &mut PgmsgFault,
) -> i32
    ensures result { result ≤ℤ pos 1 }
    ensures whole { result ≡ pos 1 → IsWhole stream.now frame.new }
    ensures part { result ≡ pos 0 → Needs stream.now frame.new.length }
    ensures part_tag { result ≡ pos 0 → frame.new.tag ≡ get_or stream.now 0 frame.old.tag }
    ensures part_alone { result ≡ pos 0 → frame.new.body ≡ frame.old.body }
    ensures fault { RefusesClientFor (IsTaggedFault stream.now) fault.old fault.new result }
    ensures left { LeavesEither fault.old fault.new frame.old frame.new result }
{
    match next_frontend_frame(Expects::Tagged, 0, stream) {
        Ok(Some(whole)) => {
            *frame = place_of_client_frame(stream, &whole);
            1
        }
        Ok(None) => {
            if !stream.is_empty() {
                frame.tag = stream[0];
            }
            frame.length = needed(stream);
            0
        }
        Err(why) => report_client(alloc, why, fault),
    }
}

// Where the message at the front is.
fn place_of_client_frame(stream: &[u8], frame: &FrontendFrame<'_>) -> PgmsgFrame
    requires { HasTaggedFrame stream.now frame.now }
    ensures { IsWhole stream.now result }
{
    PgmsgFrame {
        tag: stream[0],
        body: PgmsgSpan {
            at: HEADER,
            len: frame.body.len(),
        },
        length: HEADER + frame.body.len(),
    }
}
