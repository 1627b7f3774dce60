//! Why a message can't be said or can't come now, as a number and in words.

ghost use Rattle.std.specs.Prelude.{◌≡◌, ◌<ℤ◌, pos};
ghost use Rattle.pg_c.specs.Flow.Refusal.{flow_number, IsFlowReport};

use crate::refusal::{
    AFTER_END, BEHIND_COPY, BUSY, FLOW_FULL, IN_COPY, NOT_AN_ANSWER, NOT_IN_COPY, NOT_READY,
    NOT_REFUSABLE, PgmsgFault, SYNC_FIRST, UNASKED, UNKNOWN_MESSAGE_TYPE, fill,
};
use pg_flow::Fault;
use std::alloc::Global;

// The number of a fault.
fn number_of(fault: Fault) -> i32
    ensures { result ≡ flow_number fault }
{
    match fault {
        Fault::Unknown => UNKNOWN_MESSAGE_TYPE,
        Fault::NotReady => NOT_READY,
        Fault::AfterEnd => AFTER_END,
        Fault::InCopy => IN_COPY,
        Fault::NotInCopy => NOT_IN_COPY,
        Fault::NotRefusable => NOT_REFUSABLE,
        Fault::Unasked => UNASKED,
        Fault::Busy => BUSY,
        Fault::NotAnAnswer => NOT_AN_ANSWER,
        Fault::BehindCopy => BEHIND_COPY,
        Fault::SyncFirst => SYNC_FIRST,
        Fault::Full => FLOW_FULL,
    }
}

/// Fills the fault with why a message can't be said or can't come now, and gives its number.
pub(crate) fn report_flow(alloc: Global, why: Fault, fault: &mut PgmsgFault) -> i32
    ensures report { IsFlowReport why fault.old fault.new result }
    ensures below { result <ℤ pos 0 }
{
    let words = why.to_string(alloc);
    fill(number_of(why), 0, &words, fault)
}
