//! The kinds of message, by their tags.

ghost use Rattle.std.specs.Prelude.{◌≡◌, ◌≢◌, Some, None, Ok, IfOk, IfErr, OnErr};
ghost use Rattle.pg_base.specs.declared.error.Error.TheVariants.{Protocol};
ghost use Rattle.pg_base.specs.declared.error.ProtocolFault.TheVariants.{UnknownMessageType};
ghost use Rattle.pg_base.specs.Format.{backend_tag, format_name, IsBackendTag};

use crate::error::{Error, ProtocolFault};

/// The kinds of message that a client sends. As a number it is the tag, and kinds are ordered by
/// it. Documentation: "Message Formats", the first byte of each message marked (F).
#[derive(Clone, Copy, Debug, PartialEq, Eq, PartialOrd, Ord)]
pub enum FrontendMessageFormat {
    Bind = b'B' as isize,
    Close = b'C' as isize,
    Describe = b'D' as isize,
    Execute = b'E' as isize,
    FunctionCall = b'F' as isize,
    Flush = b'H' as isize,
    Parse = b'P' as isize,
    Query = b'Q' as isize,
    Sync = b'S' as isize,
    Terminate = b'X' as isize,
    CopyDone = b'c' as isize,
    CopyData = b'd' as isize,
    CopyFail = b'f' as isize,
    /// The tag that passwords and SASL responses share.
    PasswordPolymorphic = b'p' as isize,
}

/// The kinds of message from a server that this layer knows, by name. As a number it is the place
/// in this list, 0 to 20, and kinds are ordered by it. Documentation: "Message Formats", the
/// messages marked (B).
#[derive(Clone, Copy, Debug, PartialEq, Eq, PartialOrd, Ord)]
pub enum BackendMessageFormat {
    Authentication,
    BackendKeyData,
    BindComplete,
    CloseComplete,
    CommandComplete,
    CopyData,
    CopyDone,
    CopyInResponse,
    CopyOutResponse,
    DataRow,
    EmptyQueryResponse,
    ErrorResponse,
    NoData,
    NoticeResponse,
    NotificationResponse,
    ParameterDescription,
    ParameterStatus,
    ParseComplete,
    PortalSuspended,
    ReadyForQuery,
    RowDescription,
}

impl BackendMessageFormat {
    /// The kind of message that a tag opens. Refused with `UnknownMessageType` where none has it.
    // Inlined, so that the answer isn't copied on its way.
    #[inline(always)]
    pub fn try_from_u8(tag: u8) -> Result<Self, Error>
        ensures known { IfOk result (λ format. backend_tag format ≡ tag) }
        ensures unknown { OnErr result (¬ IsBackendTag tag) }
        ensures fault { IfErr result (λ error. error ≡ Protocol None (UnknownMessageType tag)) }
    {
        Ok(match tag {
            b'R' => BackendMessageFormat::Authentication,
            b'K' => BackendMessageFormat::BackendKeyData,
            b'2' => BackendMessageFormat::BindComplete,
            b'3' => BackendMessageFormat::CloseComplete,
            b'C' => BackendMessageFormat::CommandComplete,
            b'd' => BackendMessageFormat::CopyData,
            b'c' => BackendMessageFormat::CopyDone,
            b'G' => BackendMessageFormat::CopyInResponse,
            b'H' => BackendMessageFormat::CopyOutResponse,
            b'D' => BackendMessageFormat::DataRow,
            b'I' => BackendMessageFormat::EmptyQueryResponse,
            b'E' => BackendMessageFormat::ErrorResponse,
            b'n' => BackendMessageFormat::NoData,
            b'N' => BackendMessageFormat::NoticeResponse,
            b'A' => BackendMessageFormat::NotificationResponse,
            b't' => BackendMessageFormat::ParameterDescription,
            b'S' => BackendMessageFormat::ParameterStatus,
            b'1' => BackendMessageFormat::ParseComplete,
            b's' => BackendMessageFormat::PortalSuspended,
            b'Z' => BackendMessageFormat::ReadyForQuery,
            b'T' => BackendMessageFormat::RowDescription,
            _ => return Err(ProtocolFault::UnknownMessageType(tag).into()),
        })
    }

    /// The name of the kind, as the documentation spells it.
    pub fn name(self) -> &'static str
        ensures { result.now ≡ format_name self }
    {
        match self {
            BackendMessageFormat::Authentication => "Authentication",
            BackendMessageFormat::BackendKeyData => "BackendKeyData",
            BackendMessageFormat::BindComplete => "BindComplete",
            BackendMessageFormat::CloseComplete => "CloseComplete",
            BackendMessageFormat::CommandComplete => "CommandComplete",
            BackendMessageFormat::CopyData => "CopyData",
            BackendMessageFormat::CopyDone => "CopyDone",
            BackendMessageFormat::CopyInResponse => "CopyInResponse",
            BackendMessageFormat::CopyOutResponse => "CopyOutResponse",
            BackendMessageFormat::DataRow => "DataRow",
            BackendMessageFormat::EmptyQueryResponse => "EmptyQueryResponse",
            BackendMessageFormat::ErrorResponse => "ErrorResponse",
            BackendMessageFormat::NoData => "NoData",
            BackendMessageFormat::NoticeResponse => "NoticeResponse",
            BackendMessageFormat::NotificationResponse => "NotificationResponse",
            BackendMessageFormat::ParameterDescription => "ParameterDescription",
            BackendMessageFormat::ParameterStatus => "ParameterStatus",
            BackendMessageFormat::ParseComplete => "ParseComplete",
            BackendMessageFormat::PortalSuspended => "PortalSuspended",
            BackendMessageFormat::ReadyForQuery => "ReadyForQuery",
            BackendMessageFormat::RowDescription => "RowDescription",
        }
    }
}
