//! The opening of a session by a minor version of the protocol.

ghost use Rattle.std.specs.Prelude.{◌≡◌, ◌+◌, ◌≤◌, IfOk, OnOk, length};
ghost use Rattle.pg_base.specs.BufMut.{prefixed};
ghost use Rattle.pg_base.specs.Cutting.{max_length};
ghost use Rattle.pg_base.specs.Tagged.{fault_of};
ghost use Rattle.pg_send.specs.FrontendMessage.{RefusesNul};
ghost use Rattle.pg_send.specs.RawStartup.{raw_startup_of, AreReadable};
ghost use Rattle.pg_send.specs.Untagged.{MeasuresUntagged, WritesUntagged};

use crate::message::settings::{AsSetting, Settings, check_settings};
use crate::message::startup::PROTOCOL_VERSION;
use crate::message::untagged::{encode_untagged, untagged_len, write_untagged};
use pg_base::io::ProtocolEncode;
use pg_base::io::part::{Byte, Number32, Then};
use pg_base::{Error, ProtocolFault};

/// Opens a session by a minor version of the protocol's version 3, with settings where the caller has
/// them. It has no tag. Documentation: "Message Formats", StartupMessage (F).
#[derive(Drop)]
pub struct RawStartup<'a, S = (&'a [u8], &'a [u8])> {
    /// Servers know 0 and, since PostgreSQL 18, 2. Of a later one a server answers with
    /// NegotiateProtocolVersion which it knows.
    pub minor: u16,
    /// Names and values, of which a server requires `user`. A NUL in one, or an empty name, is sent as
    /// it is; [`RawStartup::check_round_trip`] refuses it.
    pub settings: &'a [S],
}

/// The version, the settings, and the NUL that ends them.
type Opening<'a, S> = Then<Number32, Then<Settings<'a, S>, Byte>>;

impl<S: AsSetting> RawStartup<'_, S> {
    /// The exact length of the whole message in bytes, or `MessageTooLong`.
    pub fn checked_len(&self) -> Result<usize, ProtocolFault>
        ensures { MeasuresUntagged (raw_startup_of S.pair self.now) result }
    {
        untagged_len(&self.parts())
    }

    /// Writes the whole message at the front of `out` where it is that long, and gives its length: a
    /// greater one than `out` has says that nothing was written. `MessageTooLong` leaves `out` as it was.
    pub fn write(&self, out: &mut [u8]) -> Result<usize, ProtocolFault>
        ensures written { WritesUntagged (raw_startup_of S.pair self.now) out.old out.new result }
        ensures small { IfOk result (λ len. len ≤ max_length) }
    {
        write_untagged(self.parts(), out)
    }

    /// Whether a server would get the settings back: refused with `TextHoldsNul` where a text holds
    /// a NUL, which ends it for the server, or a name is empty, which ends the settings.
    pub fn check_round_trip(&self) -> Result<(), ProtocolFault>
        ensures ok { OnOk result (AreReadable S.pair self.now.settings.now) }
        ensures fault { RefusesNul result (AreReadable S.pair self.now.settings.now) }
    {
        check_settings(self.settings)
    }

    #[inline(always)]
    fn parts(&self) -> Opening<'_, S>
        ensures version { result.0.0 ≡ 196608 + self.now.minor }
        ensures settings { result.1.0.0 ≡ self.now.settings }
        ensures end { result.1.1.0 ≡ 0 }
    {
        let version = PROTOCOL_VERSION + u32::from(self.minor);
        Then(Number32(version), Then(Settings(self.settings), Byte(0)))
    }
}

impl<S: AsSetting> ProtocolEncode for RawStartup<'_, S> {
    ghost text = { λ it. prefixed (raw_startup_of S.pair it).text };

    ghost fault = { λ it. fault_of (raw_startup_of S.pair it) };

    ghost room = { λ it. length (raw_startup_of S.pair it).text + 4 };

    fn encode(&self, buf: &mut Vec<u8>) -> Result<(), Error> {
        encode_untagged(self.parts(), buf)
    }
}
