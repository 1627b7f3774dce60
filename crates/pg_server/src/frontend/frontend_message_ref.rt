//! Any message from a client, borrowed from its body.

ghost use Rattle.std.specs.Prelude.{◌≡◌, ◌≢◌, IfSome, IfNone};
ghost use Rattle.pg_base.specs.declared.format.FrontendMessageFormat.{FrontendMessageFormat};
ghost use Rattle.pg_base.specs.Format.{frontend_tag};
ghost use Rattle.pg_server.specs.Frontend.FrontendMessageRef.{ReadsKind, ReadsTagged};

use crate::frontend::error::FrontendFault;
use crate::frontend::{
    BindRef, ExecuteRef, FunctionCallRef, ParseRef, TargetRef, read_empty, read_text,
};
use pg_base::FrontendMessageFormat;

/// A message of any kind that a client sends after its first, borrowed from its body and read without
/// memory. Documentation: "Message Formats", those marked (F).
#[derive(Drop)]
pub enum FrontendMessageRef<'a> {
    /// A portal is made of a prepared statement.
    Bind(BindRef<'a>),
    /// A statement or a portal is closed.
    Close(TargetRef<'a>),
    /// A part of the data of a COPY.
    CopyData(&'a [u8]),
    /// The data of a COPY has ended.
    CopyDone,
    /// A COPY is given up, for this reason.
    CopyFail(&'a [u8]),
    /// A statement or a portal is described.
    Describe(TargetRef<'a>),
    /// A portal is run.
    Execute(ExecuteRef<'a>),
    /// The server is asked to send what it has.
    Flush,
    /// A function is called.
    FunctionCall(FunctionCallRef<'a>),
    /// A statement is prepared.
    Parse(ParseRef<'a>),
    /// The body of a password, of either response of SASL, or of GSSAPI's: which of them, the server's
    /// request says.
    PasswordPolymorphic(&'a [u8]),
    /// Commands are run: their text.
    Query(&'a [u8]),
    /// A series of messages ends.
    Sync,
    /// The session ends.
    Terminate,
}

impl<'a> FrontendMessageRef<'a> {
    /// Reads a message by its tag, as the borrowed form of its kind does: its value and its faults. It is
    /// `UnknownTag` where no message has the tag.
    pub fn read(tag: u8, body: &'a [u8]) -> Result<FrontendMessageRef<'a>, FrontendFault>
        ensures { ReadsTagged tag body.now result }
    {
        match format_of(tag) {
            Some(format) => FrontendMessageRef::read_as(format, body),
            None => Err(FrontendFault::UnknownTag(tag)),
        }
    }

    /// Reads a message by its kind.
    pub fn read_as(
        format: FrontendMessageFormat,
        body: &'a [u8],
    ) -> Result<FrontendMessageRef<'a>, FrontendFault>
        ensures { ReadsKind format body.now result }
    {
        use FrontendMessageFormat as Format;
        match format {
            Format::Bind => Ok(FrontendMessageRef::Bind(BindRef::read(body)?)),
            Format::Close => Ok(FrontendMessageRef::Close(TargetRef::read(body)?)),
            Format::CopyData => Ok(FrontendMessageRef::CopyData(body)),
            Format::CopyDone => {
                read_empty(body)?;
                Ok(FrontendMessageRef::CopyDone)
            }
            Format::CopyFail => Ok(FrontendMessageRef::CopyFail(read_text(body)?)),
            Format::Describe => Ok(FrontendMessageRef::Describe(TargetRef::read(body)?)),
            Format::Execute => Ok(FrontendMessageRef::Execute(ExecuteRef::read(body)?)),
            Format::Flush => {
                read_empty(body)?;
                Ok(FrontendMessageRef::Flush)
            }
            Format::FunctionCall => {
                Ok(FrontendMessageRef::FunctionCall(FunctionCallRef::read(body)?))
            }
            Format::Parse => Ok(FrontendMessageRef::Parse(ParseRef::read(body)?)),
            Format::PasswordPolymorphic => Ok(FrontendMessageRef::PasswordPolymorphic(body)),
            Format::Query => Ok(FrontendMessageRef::Query(read_text(body)?)),
            Format::Sync => {
                read_empty(body)?;
                Ok(FrontendMessageRef::Sync)
            }
            Format::Terminate => {
                read_empty(body)?;
                Ok(FrontendMessageRef::Terminate)
            }
        }
    }
}

/// The kind of message that a tag opens, or `None` where no message from a client has it.
pub fn format_of(tag: u8) -> Option<FrontendMessageFormat>
    ensures known { IfSome result (λ format. frontend_tag format ≡ tag) }
    ensures unknown { IfNone result ((format : FrontendMessageFormat) → frontend_tag format ≢ tag) }
{
    Some(match tag {
        b'B' => FrontendMessageFormat::Bind,
        b'C' => FrontendMessageFormat::Close,
        b'D' => FrontendMessageFormat::Describe,
        b'E' => FrontendMessageFormat::Execute,
        b'F' => FrontendMessageFormat::FunctionCall,
        b'H' => FrontendMessageFormat::Flush,
        b'P' => FrontendMessageFormat::Parse,
        b'Q' => FrontendMessageFormat::Query,
        b'S' => FrontendMessageFormat::Sync,
        b'X' => FrontendMessageFormat::Terminate,
        b'c' => FrontendMessageFormat::CopyDone,
        b'd' => FrontendMessageFormat::CopyData,
        b'f' => FrontendMessageFormat::CopyFail,
        b'p' => FrontendMessageFormat::PasswordPolymorphic,
        _ => return None,
    })
}
