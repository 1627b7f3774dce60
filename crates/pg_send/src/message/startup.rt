//! The opening of a session.

ghost use Rattle.std.specs.Prelude.{None, OnOk, length, option_copied};
ghost use Rattle.pg_base.specs.Tagged.{first_fault};
ghost use Rattle.pg_send.specs.Startup.{setting_where_there, startup_body, startup_text, IsReadableWhereThere, StartupCanRoundTrip};
ghost use Rattle.pg_send.specs.FrontendMessage.{RefusesNul};

use crate::message::round_trip::check_text;
use crate::message::settings::{Settings, check_settings};
use crate::message::untagged::encode_untagged;
use pg_base::io::part::{Byte, Number32, Part, Then};
use pg_base::io::{Ended, ProtocolEncode, Sink};
use pg_base::{Error, ProtocolFault};

/// Protocol 3.0: the major version in the upper two bytes, the minor one in the lower.
pub const PROTOCOL_VERSION: u32 = 196608;

/// Opens a session. It has no tag. Documentation: "Message Formats", StartupMessage (F).
#[derive(Drop)]
pub struct Startup<'a> {
    /// The user to connect as, whom a server requires, here or among `params`.
    pub username: Option<&'a str>,
    /// The server takes that of the user's name where there is none.
    pub database: Option<&'a str>,
    /// Names and values of further settings. A NUL in one, or an empty name, is sent as it is;
    /// [`Startup::check_round_trip`] refuses it. A server that doesn't know a name that begins with
    /// `_pq_.` answers with a NegotiateProtocolVersion.
    pub params: &'a [(&'a str, &'a str)],
}

impl Startup<'_> {
    ghost use Rattle.pg_send.specs.Startup.{startup_fields};

    /// Whether a server would get the settings back: refused with `TextHoldsNul` where a text holds
    /// a NUL, which ends it for the server, or a name is empty, which ends the settings.
    pub fn check_round_trip(&self) -> Result<(), ProtocolFault>
        ensures ok { OnOk result (StartupCanRoundTrip (startup_fields self.now)) }
        ensures fault { RefusesNul result (StartupCanRoundTrip (startup_fields self.now)) }
    {
        check_optional(self.username)?;
        check_optional(self.database)?;
        check_settings(self.params)
    }
}

impl ProtocolEncode for Startup<'_> {
    ghost use Rattle.pg_send.specs.Startup.{startup_fields};

    ghost text = { λ startup. startup_text (startup_fields startup) };

    ghost fault = { λ startup. first_fault None (length (startup_body (startup_fields startup))) };

    ghost room = { λ startup. length (startup_text (startup_fields startup)) };

    fn encode(&self, buf: &mut Vec<u8>) -> Result<(), Error> {
        encode_untagged(
            Then(
                Number32(PROTOCOL_VERSION),
                Then(
                    Optional("user", self.username),
                    Then(
                        Optional("database", self.database),
                        Then(Settings(self.params), Byte(0)),
                    ),
                ),
            ),
            buf,
        )
    }
}

// A name and its value, where there is one.
#[derive(Clone, Copy)]
struct Optional<'a>(&'a str, Option<&'a str>);

impl Part for Optional<'_> {
    ghost use Rattle.pg_base.specs.Part.{bytes};

    ghost part = { λ it. bytes (setting_where_there it.0.now (option_copied it.1)) };

    #[inline(always)]
    fn len(&self) -> usize {
        match self.1 {
            Some(value) => Then(Ended(self.0), Ended(value)).len(),
            None => 0,
        }
    }

    #[inline(always)]
    fn fault(&self) -> Option<ProtocolFault> {
        None
    }

    #[inline(always)]
    fn put<S: Sink>(&self, sink: &mut S) {
        if let Some(value) = self.1 {
            Then(Ended(self.0), Ended(value)).put(sink);
        }
    }
}

fn check_optional(value: Option<&str>) -> Result<(), ProtocolFault>
    ensures ok { OnOk result (IsReadableWhereThere (option_copied value.entry)) }
    ensures fault { RefusesNul result (IsReadableWhereThere (option_copied value.entry)) }
{
    match value {
        Some(value) => check_text(value),
        None => Ok(()),
    }
}
