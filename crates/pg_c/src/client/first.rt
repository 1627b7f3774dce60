//! The first message of a connection, which has no tag.

ghost use Rattle.std.specs.Prelude.{◌≡◌, ◌≤ℤ◌, pos, Ok};
ghost use Rattle.pg_server.specs.Frontend.FirstMessageRef as frontend;
ghost use Rattle.pg_c.specs.Client.{RefusesClientBodyFor};
ghost use Rattle.pg_c.specs.Client.First.{BreaksFirst, IsGivenAs, ReadsFirst};
ghost use Rattle.pg_c.specs.Read.{LeavesRest};

use crate::place::{NOWHERE, PgmsgSpan};
use crate::read::check_body;
use crate::refusal::{PgmsgFault, report, report_client};
use pg_server::frontend::FirstMessageRef;
use std::alloc::Global;

/// A session is opened: a StartupMessage.
pub const FIRST_STARTUP: u32 = 0;

/// The query of another session is to be cancelled: a CancelRequest.
pub const FIRST_CANCEL_REQUEST: u32 = 1;

/// The client asks for TLS: an SSLRequest.
pub const FIRST_SSL_REQUEST: u32 = 2;

/// The client asks for encryption by GSSAPI: a GSSENCRequest.
pub const FIRST_GSS_ENC_REQUEST: u32 = 3;

// The bytes of the code before all else.
const CODE_LENGTH: usize = 4;

// Those before a key: the code and the number of a process.
const BEFORE_KEY: usize = 8;

/// A first message of the kind that `kind` says, by one of the numbers PGMSG_FIRST_STARTUP and so on. A
/// Startup has the minor version of the protocol's version 3 and its settings: names and values, each with
/// its NUL, and the NUL after them; `pgmsg_read_settings` gives them. A CancelRequest has the process and
/// the key of the other session. What is of other kinds is 0 and empty.
#[repr(C)]
#[derive(Clone, Copy)]
pub struct PgmsgFirst {
    pub kind: u32,
    pub minor: u16,
    pub process_id: u32,
    pub settings: PgmsgSpan,
    pub secret_key: PgmsgSpan,
}

/// A first message, by its body. 0, or why it is refused.
#[unsafe(no_mangle)]
pub extern "C" fn pgmsg_read_first(
    alloc: Global,
    body: &[u8],
    first: &mut PgmsgFirst,
    fault: &mut PgmsgFault,
) -> i32
    ensures result { result ≤ℤ pos 0 }
    ensures value { result ≡ pos 0 → ReadsFirst body.now first.new }
    ensures fault { RefusesClientBodyFor BreaksFirst body.now fault.old fault.new result }
    ensures left { LeavesRest body.now fault.old fault.new first.old first.new result }
{
    if let Err(why) = check_body(body) {
        return report(alloc, why.into(), fault);
    }
    match FirstMessageRef::read(body) {
        Ok(read) => {
            *first = given(body, &read);
            0
        }
        Err(why) => report_client(alloc, why, fault),
    }
}

// The message as it is given.
fn given(body: &[u8], message: &FirstMessageRef<'_>) -> PgmsgFirst
    requires { frontend.ReadsFirst body.now (Ok message.now) }
    ensures { IsGivenAs body.now message.now result }
{
    let nothing = PgmsgFirst {
        kind: FIRST_STARTUP,
        minor: 0,
        process_id: 0,
        settings: NOWHERE,
        secret_key: NOWHERE,
    };
    match message {
        FirstMessageRef::Startup { minor, .. } => PgmsgFirst {
            minor: *minor,
            settings: PgmsgSpan {
                at: CODE_LENGTH,
                len: body.len() - CODE_LENGTH,
            },
            ..nothing
        },
        FirstMessageRef::CancelRequest(cancel) => PgmsgFirst {
            kind: FIRST_CANCEL_REQUEST,
            process_id: cancel.process_id,
            secret_key: PgmsgSpan {
                at: BEFORE_KEY,
                len: cancel.secret_key.len(),
            },
            ..nothing
        },
        FirstMessageRef::SslRequest => PgmsgFirst {
            kind: FIRST_SSL_REQUEST,
            ..nothing
        },
        FirstMessageRef::GssEncRequest => PgmsgFirst {
            kind: FIRST_GSS_ENC_REQUEST,
            ..nothing
        },
    }
}
