//! The kinds of message of the whole protocol.

ghost use Rattle.std.specs.Prelude.{◌≡◌, IfSome, IfNone};
ghost use Rattle.pg_format.specs.Protocol.{protocol_tag, protocol_name, IsProtocolTag};

use pg_base::BackendMessageFormat;

/// The kinds of message that a server sends: the 21 of [`BackendMessageFormat`], and the three that
/// sqlx-postgres doesn't know. Documentation: "Message Formats", the messages marked (B).
#[derive(Clone, Copy, Debug, PartialEq, Eq)]
pub enum ProtocolMessageKind {
    /// One of the 21.
    Known(BackendMessageFormat),
    /// The server copies both ways from now on, as in replication.
    CopyBothResponse,
    /// The result of a function that was called.
    FunctionCallResponse,
    /// The server speaks an older minor version than was asked for, or doesn't know some options.
    NegotiateProtocolVersion,
}

impl ProtocolMessageKind {
    /// The kind of message that a tag opens, or `None` where no message from a server has it.
    #[inline(always)]
    pub fn of_tag(tag: u8) -> Option<ProtocolMessageKind>
        ensures known { IfSome result (λ kind. protocol_tag kind ≡ tag) }
        ensures unknown { IfNone result (¬ IsProtocolTag tag) }
    {
        Some(match tag {
            b'W' => ProtocolMessageKind::CopyBothResponse,
            b'V' => ProtocolMessageKind::FunctionCallResponse,
            b'v' => ProtocolMessageKind::NegotiateProtocolVersion,
            tag => ProtocolMessageKind::Known(BackendMessageFormat::try_from_u8(tag).ok()?),
        })
    }

    /// The name of the kind, as the documentation spells it.
    pub fn name(self) -> &'static str
        ensures { result.now ≡ protocol_name self }
    {
        match self {
            ProtocolMessageKind::Known(format) => format.name(),
            ProtocolMessageKind::CopyBothResponse => "CopyBothResponse",
            ProtocolMessageKind::FunctionCallResponse => "FunctionCallResponse",
            ProtocolMessageKind::NegotiateProtocolVersion => "NegotiateProtocolVersion",
        }
    }
}
