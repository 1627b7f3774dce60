//! What of the protocol a server doesn't speak.

ghost use Rattle.std.specs.Prelude.{◌≤◌, length};
ghost use Rattle.pg_format.specs.Format.{ReadsAs};
ghost use Rattle.pg_format.specs.Messages.{negotiate_protocol_version};
ghost use Rattle.pg_receive.specs.NegotiateProtocolVersion.{negotiation_borrowed};

use crate::message::option_names::OptionNames;
use pg_base::ProtocolFault;
use pg_base::io::{MAX_BODY, bytes_at, u16_at, u32_at};

// The offsets of the minor version, of the count of options and of the first option.
const MINOR: usize = 2;

const OPTIONS: usize = 4;

const FIRST_OPTION: usize = 8;

/// The newest version of the protocol that a server speaks, and the options that it doesn't know, borrowed
/// from the body of its message. Documentation: "Message Formats", NegotiateProtocolVersion (B).
#[derive(Clone, Copy)]
pub struct NegotiateProtocolVersionRef<'a> {
    /// The major version: 3 of PostgreSQL's servers, and 0 where a server sends the minor version alone.
    pub major: u16,
    /// The minor version.
    pub minor: u16,
    /// The names of the options of the Startup that the server doesn't know.
    pub options: OptionNames<'a>,
}

impl<'a> NegotiateProtocolVersionRef<'a> {
    /// Reads a body of at most [`MAX_BODY`] bytes. Refused with `Short` where it ends before the version or
    /// the count of options, and with `MissingNul` where an option has no end.
    pub fn read(body: &'a [u8]) -> Result<NegotiateProtocolVersionRef<'a>, ProtocolFault>
        requires { length body.now ≤ MAX_BODY }
        ensures { ReadsAs negotiate_protocol_version negotiation_borrowed body.now result }
    {
        bytes_at(body, 0, OPTIONS)?;
        let major = u16_at(body, 0)?;
        let minor = u16_at(body, MINOR)?;
        let count = u32_at(body, OPTIONS)? as usize;
        let (options, _end) = OptionNames::read(body, FIRST_OPTION, count)?;
        Ok(NegotiateProtocolVersionRef {
            major,
            minor,
            options,
        })
    }
}
