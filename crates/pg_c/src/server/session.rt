//! What the server says of the session.

ghost use Rattle.std.specs.Prelude.{◌≡◌};
ghost use Rattle.pg_server.specs.Backend.Message.{key_data_of, parameter_status_of};
ghost use Rattle.pg_c.specs.Server.{PutsServerMessage};
ghost use Rattle.pg_c.specs.Server.Letters.{ready_of, PutsReady};
ghost use Rattle.pg_c.specs.Server.Messages.{negotiation_of};

use crate::refusal::UNKNOWN_STATUS;
use crate::server::authentication::PgmsgBytes;
use crate::server::put;
use pg_server::backend::{
    OutboundBackendKeyData, OutboundNegotiateProtocolVersion, OutboundParameterStatus,
    OutboundReadyForQuery,
};

/// The newest minor version of the protocol's version 3 that the server speaks, and the names of the options that
/// it doesn't know. A NUL in one is refused. The message has the whole version, as PostgreSQL's servers send it.
#[unsafe(no_mangle)]
pub extern "C" fn pgmsg_put_negotiate_version(
    minor: u16,
    options: &[PgmsgBytes<'_>],
    out: &mut [u8],
) -> isize
    ensures { PutsServerMessage (negotiation_of minor options.now) out.old out.new result }
{
    put(&OutboundNegotiateProtocolVersion { minor, options }, out)
}

/// The process that serves the client, and the secret key that a request to cancel its work has to name
/// too: 4 bytes, or up to 256 of a server that speaks version 3.2 of the protocol. Of another length it is
/// refused with PGMSG_BAD_KEY_LENGTH.
#[unsafe(no_mangle)]
pub extern "C" fn pgmsg_put_backend_key_data(
    process_id: u32,
    secret_key: &[u8],
    out: &mut [u8],
) -> isize
    ensures { PutsServerMessage (key_data_of process_id secret_key.now) out.old out.new result }
{
    let key = OutboundBackendKeyData {
        process_id,
        secret_key,
    };
    put(&key, out)
}

/// The value of a setting, at the start of a session and whenever it changes. A NUL in a text is
/// refused.
#[unsafe(no_mangle)]
pub extern "C" fn pgmsg_put_parameter_status(name: &[u8], value: &[u8], out: &mut [u8]) -> isize
    ensures { PutsServerMessage (parameter_status_of name.now value.now) out.old out.new result }
{
    put(&OutboundParameterStatus { name, value }, out)
}

/// The server is ready for the next query. `status` is `I` where no transaction is open, `T` where one
/// is, and `E` where one is and has failed; another letter is refused with PGMSG_UNKNOWN_STATUS.
#[unsafe(no_mangle)]
#[tactic(auto, using(crate::proofs::ServerLettersLemmas::ready_found, crate::proofs::ServerLettersLemmas::put_by_letter, crate::proofs::ServerLettersLemmas::refused_by_letter))]
pub extern "C" fn pgmsg_put_ready(status: u8, out: &mut [u8]) -> isize
    ensures { PutsReady status out.old out.new result }
{
    match ready_of(status) {
        Some(ready) => put(&ready, out),
        None => UNKNOWN_STATUS as isize,
    }
}

fn ready_of(status: u8) -> Option<OutboundReadyForQuery>
    ensures { result ≡ ready_of status }
{
    match status {
        b'I' => Some(OutboundReadyForQuery::Idle),
        b'T' => Some(OutboundReadyForQuery::Transaction),
        b'E' => Some(OutboundReadyForQuery::Error),
        _ => None,
    }
}
