//! A session, as its client or its server follows it.

ghost use Rattle.std.specs.Prelude.{◌≡◌, ◌≤ℤ◌, pos, Some, None, true, false};
ghost use Rattle.pg_flow.specs.FixedFlow.{IsShown, session_in};
ghost use Rattle.pg_flow.specs.Flow.{first_session, new_client, new_server};
ghost use Rattle.pg_flow.specs.Flow.{session_said, session_number, session_heard, session_whose};
ghost use Rattle.pg_c.specs.Read.{LeavesEither};
ghost use Rattle.pg_c.specs.Flow.{given_heard, heard_kind, RefusesHeard, RefusesSaid};

use crate::flow::refusal::report_flow;
use crate::refusal::PgmsgFault;
use pg_flow::{FixedFlow, Heard};
use std::alloc::Global;

/// The login isn't over.
pub const MODE_LOGIN: i32 = 0;

/// No request waits.
pub const MODE_IDLE: i32 = 1;

/// A request waits for its answer.
pub const MODE_BUSY: i32 = 2;

/// The server takes data of a COPY.
pub const MODE_COPY_IN: i32 = 3;

/// The server gives data of a COPY.
pub const MODE_COPY_OUT: i32 = 4;

/// Data of a COPY go both ways.
pub const MODE_COPY_BOTH: i32 = 5;

/// No request waits, and after an error the server passes over each but a Sync.
pub const MODE_SKIPPING: i32 = 6;

/// Nothing may be asked any more.
pub const MODE_ENDED: i32 = 7;

/// A message of a server answers no request: a notice, a notification or a setting.
pub const HEARD_BY_ITSELF: i32 = 0;

/// It answers a request.
pub const HEARD_ANSWER: i32 = 1;

/// It is a ReadyForQuery for one of several Syncs, some of which were said before the end of a COPY's data.
pub const HEARD_GROUP: i32 = 2;

/// It belongs to the login.
pub const HEARD_LOGIN: i32 = 3;

/// It is a server's last words.
pub const HEARD_END: i32 = 4;

/// A session, as its client or its server follows it: begin by `pgmsg_flow_client` or `pgmsg_flow_server`. `mode` is one of
/// PGMSG_MODE_LOGIN and those after it; `status` is the letter of the last ReadyForQuery, 0 before the first; `count` is how
/// many requests were said, whose numbers begin with 0, and `first` the number of the first that waits. What follows them is
/// the library's. The struct may be copied.
pub type PgmsgFlow = FixedFlow;

/// Which request a message of a server answers: the one of the number `first`, or one of the Syncs from `first` to `last`;
/// `is_last` says that nothing more comes for it. Where it answers none, they are 0 and false.
#[repr(C)]
#[derive(Clone, Copy)]
pub struct PgmsgHeard {
    pub first: u64,
    pub last: u64,
    pub is_last: bool,
}

/// Begins to follow the session of a client that has said nothing yet.
#[unsafe(no_mangle)]
pub extern "C" fn pgmsg_flow_client(flow: &mut PgmsgFlow)
    ensures flow { session_in flow.new ≡ first_session new_client }
    ensures shown { IsShown flow.new }
{
    *flow = FixedFlow::client();
}

/// Begins to follow the session of a server that has taken nothing yet.
#[unsafe(no_mangle)]
pub extern "C" fn pgmsg_flow_server(flow: &mut PgmsgFlow)
    ensures flow { session_in flow.new ≡ first_session new_server }
    ensures shown { IsShown flow.new }
{
    *flow = FixedFlow::server();
}

/// Takes a message of the client, as a client before the message is sent and a server when it has come: 1 where it is a
/// request, and its `number`; 0 where it is none. A message without a tag has the tag 0, and its body begins with its
/// code. Six bytes of a body are enough. Refused where the message can't come now, which changes nothing, and with
/// PGMSG_FLOW_FULL where 1025 requests wait or no memory is there.
#[unsafe(no_mangle)]
pub extern "C" fn pgmsg_flow_said(
    alloc: Global,
    flow: &mut PgmsgFlow,
    tag: u8,
    body: &[u8],
    number: &mut u64,
    fault: &mut PgmsgFault,
) -> i32
    ensures result { result ≤ℤ pos 1 }
    ensures said { pos 0 ≤ℤ result → session_said tag body.now (session_in flow.old)
        ≡ Some (session_in flow.new) }
    ensures request { result ≡ pos 1 → session_number tag body.now (session_in flow.old)
        ≡ Some number.new }
    ensures none { result ≡ pos 0 → session_number tag body.now (session_in flow.old) ≡ None }
    ensures number { result ≤ℤ pos 0 → number.new ≡ number.old }
    ensures shown { pos 0 ≤ℤ result → IsShown flow.new }
    ensures fault { RefusesSaid tag body.now flow.old fault.old fault.new result }
    ensures left { LeavesEither fault.old fault.new flow.old flow.new result }
{
    match flow.said(alloc, tag, body) {
        Ok(Some(request)) => {
            *number = request;
            1
        }
        Ok(None) => 0,
        Err(why) => report_flow(alloc, why, fault),
    }
}

/// Takes a message of the server, as a client when it has come and a server before the message is sent, and gives which
/// request it answers: PGMSG_HEARD_ANSWER, PGMSG_HEARD_GROUP, or another of these numbers where it answers none. The byte that
/// answers a request for encryption is a tag, with no body. Four bytes of a body are enough, and of a run of DataRow the
/// first. Refused where the message can't come now, which changes nothing: a client closes the connection then. Refused too
/// with PGMSG_FLOW_FULL where no memory is there, which is needed while more than one request waits.
#[unsafe(no_mangle)]
pub extern "C" fn pgmsg_flow_heard(
    alloc: Global,
    flow: &mut PgmsgFlow,
    tag: u8,
    body: &[u8],
    heard: &mut PgmsgHeard,
    fault: &mut PgmsgFault,
) -> i32
    ensures result { result ≤ℤ pos 4 }
    ensures heard { pos 0 ≤ℤ result → session_heard tag body.now (session_in flow.old)
        ≡ Some (session_in flow.new) }
    ensures kind { pos 0 ≤ℤ result → result
        ≡ heard_kind (session_whose tag body.now (session_in flow.old)) }
    ensures whose { pos 0 ≤ℤ result → heard.new
        ≡ given_heard (session_whose tag body.now (session_in flow.old)) }
    ensures shown { pos 0 ≤ℤ result → IsShown flow.new }
    ensures fault { RefusesHeard tag body.now flow.old fault.old fault.new result }
    ensures left { LeavesEither fault.old fault.new flow.old flow.new result }
    ensures kept { LeavesEither fault.old fault.new heard.old heard.new result }
{
    match flow.heard(alloc, tag, body) {
        Ok(whose) => {
            *heard = given(whose);
            kind_of(whose)
        }
        Err(why) => report_flow(alloc, why, fault),
    }
}

// Which request is answered, as C has it.
fn given(whose: Heard) -> PgmsgHeard
    ensures { result ≡ given_heard whose }
{
    match whose {
        Heard::Answer { request, is_last } => PgmsgHeard {
            first: request,
            last: request,
            is_last,
        },
        Heard::Group { first, last } => PgmsgHeard {
            first,
            last,
            is_last: false,
        },
        Heard::ByItself | Heard::Login | Heard::End => PgmsgHeard {
            first: 0,
            last: 0,
            is_last: false,
        },
    }
}

// Whether a request is answered, and what else comes, as a number.
fn kind_of(whose: Heard) -> i32
    ensures kind { result ≡ heard_kind whose }
    ensures above { pos 0 ≤ℤ result }
    ensures below { result ≤ℤ pos 4 }
{
    match whose {
        Heard::ByItself => HEARD_BY_ITSELF,
        Heard::Answer { .. } => HEARD_ANSWER,
        Heard::Group { .. } => HEARD_GROUP,
        Heard::Login => HEARD_LOGIN,
        Heard::End => HEARD_END,
    }
}
