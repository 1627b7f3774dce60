//! Why a stream isn't passed on, as a number and in words.

ghost use Rattle.std.specs.Prelude.{◌≡◌, ◌<ℤ◌, pos};
ghost use Rattle.pg_c.specs.Relay.Refusal.{relay_number, IsRelayReport};

use crate::refusal::{BAD_LENGTH, FRAME_TOO_LONG, NOT_FRAMES, OUT_OF_MEMORY, PgmsgFault, fill};
use pg_frames::relay::RelayError;
use std::alloc::Global;

// The number of what is wrong.
fn number_of(error: RelayError) -> i32
    ensures { result ≡ relay_number error }
{
    match error {
        RelayError::BadLength(_) => BAD_LENGTH,
        RelayError::TooLong { .. } => FRAME_TOO_LONG,
        RelayError::NotFrames => NOT_FRAMES,
        RelayError::OutOfMemory => OUT_OF_MEMORY,
    }
}

/// Fills the fault with what is wrong with a stream that is passed on, and gives its number.
pub(crate) fn report_relay(alloc: Global, why: RelayError, fault: &mut PgmsgFault) -> i32
    ensures report { IsRelayReport why fault.old fault.new result }
    ensures below { result <ℤ pos 0 }
{
    let words = why.to_string(alloc);
    fill(number_of(why), 0, &words, fault)
}
