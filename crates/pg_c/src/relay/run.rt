//! Whether bytes are whole messages.

ghost use Rattle.std.specs.Prelude.{◌≡◌, ◌<ℤ◌, ◌≤ℤ◌, pos};
ghost use Rattle.pg_frames.specs.Relay.Answer.{IsRun};
ghost use Rattle.pg_frames.specs.declared.relay.error.RelayError.TheVariants.{NotFrames};
ghost use Rattle.pg_c.specs.Read.{LeavesEither};
ghost use Rattle.pg_c.specs.Relay.{expected, AreNoFrames};
ghost use Rattle.pg_c.specs.Relay.Refusal.{IsRelayReport};

use crate::refusal::PgmsgFault;
use crate::relay::refusal::report_relay;
use crate::relay::state::{expects_of, is_of_first};
use pg_frames::relay::{RelayError, end_of_run};
use std::alloc::Global;

/// Whether bytes are whole messages one after the other, so that they may be added to a stream. `is_first` says whether
/// the first of them is a first message. Where they are, the call returns 0 and sets `is_first` for what comes after
/// them; else it refuses.
#[unsafe(no_mangle)]
pub extern "C" fn pgmsg_check_frames(
    alloc: Global,
    bytes: &[u8],
    is_first: &mut bool,
    fault: &mut PgmsgFault,
) -> i32
    ensures result { result ≤ℤ pos 0 }
    ensures run { result ≡ pos 0 → IsRun (expected is_first.old) bytes.now (expected is_first.new) }
    ensures none { result <ℤ pos 0 → AreNoFrames is_first.old bytes.now }
    ensures fault { result <ℤ pos 0 → IsRelayReport NotFrames fault.old fault.new result }
    ensures left { LeavesEither fault.old fault.new is_first.old is_first.new result }
{
    let Some(last) = end_of_run(expects_of(*is_first), bytes) else {
        return report_relay(alloc, RelayError::NotFrames, fault);
    };
    *is_first = is_of_first(last);
    0
}
