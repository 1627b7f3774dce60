//! The first message of a connection, which has no tag.

ghost use Rattle.std.specs.Prelude.{◌≡◌, ◌+◌, ◌<◌, ◌≤◌, IfSome, IfNone};
ghost use Rattle.pg_server.specs.Frontend.FirstMessageRef.{ReadsFirst};

use crate::frontend::cancel_request::{CancelRequestRef, cancel_at};
use crate::frontend::empty::nothing_at;
use crate::frontend::error::FrontendFault;
use crate::frontend::offsets::u32_at;
use crate::frontend::settings::{Settings, all_settings};

// The codes of messages; that of a Startup is its version, which the minor one is added to.
const CANCEL_REQUEST: u32 = 80877102;

const SSL_REQUEST: u32 = 80877103;

const GSS_ENC_REQUEST: u32 = 80877104;

const VERSION_3: u32 = 196608;

/// The first message that a client sends, or the one after a request for encryption, borrowed from its
/// body, which follows its length. Documentation: "Message Formats", StartupMessage (F), CancelRequest (F),
/// SSLRequest (F), GSSENCRequest (F).
#[derive(Drop)]
pub enum FirstMessageRef<'a> {
    /// A session is opened, by this minor version of the protocol's version 3, with these settings.
    Startup { minor: u16, settings: Settings<'a> },
    /// The query of another session is to be cancelled.
    CancelRequest(CancelRequestRef<'a>),
    /// The client asks for TLS.
    SslRequest,
    /// The client asks for encryption by GSSAPI.
    GssEncRequest,
}

impl<'a> FirstMessageRef<'a> {
    /// Reads a body by the code at its front. It is `UnknownCode` where no message has the code.
    pub fn read(body: &'a [u8]) -> Result<FirstMessageRef<'a>, FrontendFault>
        ensures { ReadsFirst body.now result }
    {
        let (code, end) = u32_at(body, 0)?;
        match code {
            CANCEL_REQUEST => Ok(FirstMessageRef::CancelRequest(cancel_at(body, end)?)),
            SSL_REQUEST => {
                nothing_at(body, end)?;
                Ok(FirstMessageRef::SslRequest)
            }
            GSS_ENC_REQUEST => {
                nothing_at(body, end)?;
                Ok(FirstMessageRef::GssEncRequest)
            }
            code => match minor_of(code) {
                Some(minor) => {
                    let settings = all_settings(body, end)?;
                    Ok(FirstMessageRef::Startup { minor, settings })
                }
                None => Err(FrontendFault::UnknownCode(code)),
            },
        }
    }
}

// The minor version of a code that is one of the protocol's version 3.
fn minor_of(code: u32) -> Option<u16>
    ensures minor { IfSome result (λ minor. code ≡ 196608 + minor) }
    ensures none { IfNone result (¬ ((196608 ≤ code) × (code < 262144))) }
{
    u16::try_from(code.checked_sub(VERSION_3)?).ok()
}
