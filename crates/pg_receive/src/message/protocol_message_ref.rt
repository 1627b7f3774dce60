//! Any message of the whole protocol from the server, borrowed from its body.

ghost use Rattle.std.specs.Prelude.{◌≡◌, ◌≤◌, ◌<◌, Err, length};
ghost use Rattle.pg_base.specs.declared.error.ProtocolFault.TheVariants.{BodyTooLong};
ghost use Rattle.pg_receive.specs.ProtocolMessageRef.{ReadsProtocol};

use crate::message::{
    AnyAuthenticationRef, CopyResponseRef, FunctionCallResponseRef, NegotiateProtocolVersionRef,
    RawKeyData, ServerMessageRef,
};
use pg_base::io::MAX_BODY;
use pg_base::{BackendMessageFormat, ProtocolFault};
use pg_format::ProtocolMessageKind;

/// A message of any kind of the whole protocol that a server sends, borrowed from its body and read without
/// memory. Documentation: "Message Formats", those marked (B).
#[derive(Drop)]
pub enum ProtocolMessageRef<'a> {
    /// How a client shows who it is, by any method.
    Authentication(AnyAuthenticationRef<'a>),
    /// What a client names a session by to cancel its query, with a secret of 4 to 256 bytes.
    BackendKeyData(RawKeyData<'a>),
    /// Data is copied both ways from now on.
    CopyBothResponse(CopyResponseRef<'a>),
    /// The result of a function that was called.
    FunctionCallResponse(FunctionCallResponseRef<'a>),
    /// The server speaks an older minor version than was asked for, or doesn't know some options.
    NegotiateProtocolVersion(NegotiateProtocolVersionRef<'a>),
    /// A message of another kind.
    Other(ServerMessageRef<'a>),
}

impl<'a> ProtocolMessageRef<'a> {
    /// Reads a body by the kind of its message: its value and its faults. A message in the case `Other` is
    /// what [`ServerMessageRef::read`] gives. It is `BodyTooLong` where the body has more than [`MAX_BODY`]
    /// bytes.
    pub fn read(
        kind: ProtocolMessageKind,
        body: &'a [u8],
    ) -> Result<ProtocolMessageRef<'a>, ProtocolFault>
        ensures long { MAX_BODY < length body.now → result ≡ Err (BodyTooLong (length body.now)) }
        ensures message { length body.now ≤ MAX_BODY → ReadsProtocol kind body.now result }
    {
        use BackendMessageFormat as Format;
        if body.len() > MAX_BODY {
            return Err(ProtocolFault::BodyTooLong(body.len()));
        }
        Ok(match kind {
            ProtocolMessageKind::Known(Format::Authentication) => {
                ProtocolMessageRef::Authentication(AnyAuthenticationRef::read(body)?)
            }
            ProtocolMessageKind::Known(Format::BackendKeyData) => {
                ProtocolMessageRef::BackendKeyData(RawKeyData::read(body)?)
            }
            ProtocolMessageKind::Known(format) => {
                ProtocolMessageRef::Other(ServerMessageRef::read(format, body)?)
            }
            ProtocolMessageKind::CopyBothResponse => {
                ProtocolMessageRef::CopyBothResponse(CopyResponseRef::read(body)?)
            }
            ProtocolMessageKind::FunctionCallResponse => {
                ProtocolMessageRef::FunctionCallResponse(FunctionCallResponseRef::read(body)?)
            }
            ProtocolMessageKind::NegotiateProtocolVersion => {
                ProtocolMessageRef::NegotiateProtocolVersion(NegotiateProtocolVersionRef::read(
                    body,
                )?)
            }
        })
    }
}
