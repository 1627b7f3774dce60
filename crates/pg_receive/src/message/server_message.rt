//! Any message from the server, as a value of its kind's type, and borrowed from its body.

ghost use Rattle.std.specs.Prelude.{◌≡◌, ◌≤◌, ◌<◌, Err, length};
ghost use Rattle.pg_base.specs.declared.error.ProtocolFault.TheVariants.{BodyTooLong};
ghost use Rattle.pg_receive.specs.ServerMessage.{Borrows, Decodes, DecodesCase};

use crate::database_error::PgDatabaseError;
use crate::message::visitor::{Keep, Visitor};
use crate::message::{
    Authentication, BackendKeyData, BackendMessage, ColumnReader, CommandComplete, CopyData,
    CopyDone, CopyInResponse, CopyOutResponse, DataRow, Fields, Notice, Notification,
    NotificationRef, ParameterDescription, ParameterStatus, ParameterStatusRef, ReadyForQuery,
    ReceivedMessage, RowDescription, RowReader,
};
use bytes::Bytes;
use pg_base::io::MAX_BODY;
use pg_base::{BackendMessageFormat, Error, ProtocolFault};
use std::alloc::Global;

/// A message of any kind that a server sends. Documentation: "Message Formats", those marked (B).
///
/// The six kinds without a type of their own have a case without a value: their bodies are empty.
#[derive(Drop)]
pub enum ServerMessage {
    /// How a client shows who it is, or that it has.
    Authentication(Authentication),
    /// What a client names a session by to cancel its query.
    BackendKeyData(BackendKeyData),
    /// A portal is bound.
    BindComplete,
    /// A statement or a portal is closed.
    CloseComplete,
    /// A command has ended.
    CommandComplete(CommandComplete),
    /// A part of the data of a COPY.
    CopyData(CopyData<Bytes>),
    /// The data of a COPY has ended.
    CopyDone(CopyDone),
    /// The server waits for the data of a COPY.
    CopyInResponse(CopyInResponse),
    /// The server is about to send the data of a COPY.
    CopyOutResponse(CopyOutResponse),
    /// A row.
    DataRow(DataRow),
    /// The text of a query held no query.
    EmptyQueryResponse,
    /// An error, after which the command is over.
    ErrorResponse(PgDatabaseError),
    /// A statement or a portal returns no rows.
    NoData,
    /// A notice, such as a warning.
    NoticeResponse(Notice),
    /// A notification by NOTIFY.
    NotificationResponse(Notification),
    /// The types of a statement's parameters.
    ParameterDescription(ParameterDescription),
    /// A setting of the session.
    ParameterStatus(ParameterStatus),
    /// A statement is parsed.
    ParseComplete,
    /// A portal has sent as many rows as were asked for, and has more.
    PortalSuspended,
    /// The server is ready for the next query.
    ReadyForQuery(ReadyForQuery),
    /// The columns of the rows that come next.
    RowDescription(RowDescription),
}

impl ServerMessage {
    /// Reads a message by its kind.
    ///
    /// It is what [`ReceivedMessage::decode`] gives for the type of that kind: its value, its faults
    /// and `OutOfMemory`. A message of a kind without a type is its case, whatever its body.
    pub fn decode(alloc: Global, message: ReceivedMessage) -> Result<ServerMessage, Error>
        ensures { Decodes message.format (λ decoded given. given ≡ decoded) message result }
    {
        ServerMessage::visit(alloc, message, Keep)
    }

    /// Reads a message by its kind, as [`ServerMessage::decode`] does, and hands it to a visitor.
    ///
    /// It can be faster: where the visitor's `visit` is `#[inline(always)]`, the compiler knows the
    /// case in each branch, and resolves the visitor's `match` at compile time.
    #[inline(always)]
    pub fn visit<V: Visitor>(
        alloc: Global,
        message: ReceivedMessage,
        visitor: V,
    ) -> Result<V::Output, Error>
        ensures { Decodes message.format (V.Visitor.gives visitor) message result }
    {
        use BackendMessageFormat as Format;
        match message.format {
            Format::Authentication => in_case(
                alloc,
                message,
                ServerMessage::Authentication,
                visitor,
            ),
            Format::BackendKeyData => in_case(
                alloc,
                message,
                ServerMessage::BackendKeyData,
                visitor,
            ),
            Format::BindComplete => Ok(visitor.visit(ServerMessage::BindComplete)),
            Format::CloseComplete => Ok(visitor.visit(ServerMessage::CloseComplete)),
            Format::CommandComplete => in_case(
                alloc,
                message,
                ServerMessage::CommandComplete,
                visitor,
            ),
            Format::CopyData => in_case(alloc, message, ServerMessage::CopyData, visitor),
            Format::CopyDone => in_case(alloc, message, ServerMessage::CopyDone, visitor),
            Format::CopyInResponse => in_case(
                alloc,
                message,
                ServerMessage::CopyInResponse,
                visitor,
            ),
            Format::CopyOutResponse => in_case(
                alloc,
                message,
                ServerMessage::CopyOutResponse,
                visitor,
            ),
            Format::DataRow => in_case(alloc, message, ServerMessage::DataRow, visitor),
            Format::EmptyQueryResponse => Ok(visitor.visit(ServerMessage::EmptyQueryResponse)),
            Format::ErrorResponse => in_case(alloc, message, ServerMessage::ErrorResponse, visitor),
            Format::NoData => Ok(visitor.visit(ServerMessage::NoData)),
            Format::NoticeResponse => in_case(
                alloc,
                message,
                ServerMessage::NoticeResponse,
                visitor,
            ),
            Format::NotificationResponse => in_case(
                alloc,
                message,
                ServerMessage::NotificationResponse,
                visitor,
            ),
            Format::ParameterDescription => in_case(
                alloc,
                message,
                ServerMessage::ParameterDescription,
                visitor,
            ),
            Format::ParameterStatus => in_case(
                alloc,
                message,
                ServerMessage::ParameterStatus,
                visitor,
            ),
            Format::ParseComplete => Ok(visitor.visit(ServerMessage::ParseComplete)),
            Format::PortalSuspended => Ok(visitor.visit(ServerMessage::PortalSuspended)),
            Format::ReadyForQuery => in_case(alloc, message, ServerMessage::ReadyForQuery, visitor),
            Format::RowDescription => in_case(
                alloc,
                message,
                ServerMessage::RowDescription,
                visitor,
            ),
        }
    }
}

// The message as a `T`, in the case of its kind, given to a visitor.
#[inline(always)]
fn in_case<T: BackendMessage, F: FnOnce(T) -> ServerMessage, V: Visitor>(
    alloc: Global,
    message: ReceivedMessage,
    case: F,
    visitor: V,
) -> Result<V::Output, Error>
    requires { F.IsAlwaysCallable case }
    ensures { DecodesCase T.BackendMessage (F.post case) (V.Visitor.gives visitor) message result }
{
    let value = message.decode(alloc)?;
    Ok(visitor.visit(case(value)))
}

/// A message of any kind that a server sends, borrowed from its body and read without memory.
/// Documentation: "Message Formats", those marked (B).
///
/// A case holds the borrowed form of its kind, or the body where the kind has none. The cases of
/// kinds whose bodies are empty hold nothing, whatever the body.
#[derive(Drop)]
pub enum ServerMessageRef<'a> {
    /// The body of an Authentication.
    Authentication(&'a [u8]),
    /// What a client names a session by to cancel its query.
    BackendKeyData(BackendKeyData),
    /// A portal is bound.
    BindComplete,
    /// A statement or a portal is closed.
    CloseComplete,
    /// A command has ended: the body, a tag and its NUL, for
    /// [`rows_affected`](crate::message::rows_affected).
    CommandComplete(&'a [u8]),
    /// A part of the data of a COPY.
    CopyData(&'a [u8]),
    /// The data of a COPY has ended.
    CopyDone,
    /// The body of a CopyInResponse.
    CopyInResponse(&'a [u8]),
    /// The body of a CopyOutResponse.
    CopyOutResponse(&'a [u8]),
    /// A row, whose cells are read one by one.
    DataRow(RowReader<'a>),
    /// The text of a query held no query.
    EmptyQueryResponse,
    /// The fields of an error, after which the command is over.
    ErrorResponse(Fields<'a>),
    /// A statement or a portal returns no rows.
    NoData,
    /// The fields of a notice, such as a warning.
    NoticeResponse(Fields<'a>),
    /// A notification by NOTIFY.
    NotificationResponse(NotificationRef<'a>),
    /// The body of a ParameterDescription.
    ParameterDescription(&'a [u8]),
    /// A setting of the session.
    ParameterStatus(ParameterStatusRef<'a>),
    /// A statement is parsed.
    ParseComplete,
    /// A portal has sent as many rows as were asked for, and has more.
    PortalSuspended,
    /// The server is ready for the next query.
    ReadyForQuery(ReadyForQuery),
    /// The columns of the rows that come next, which are read one by one.
    RowDescription(ColumnReader<'a>),
}

impl<'a> ServerMessageRef<'a> {
    /// Reads a body by the kind of its message, as the borrowed form of that kind does: its value
    /// and its faults. It is `BodyTooLong` where the body has more than [`MAX_BODY`] bytes.
    pub fn read(
        format: BackendMessageFormat,
        body: &'a [u8],
    ) -> Result<ServerMessageRef<'a>, ProtocolFault>
        ensures long { MAX_BODY < length body.now → result ≡ Err (BodyTooLong (length body.now)) }
        ensures message { length body.now ≤ MAX_BODY → Borrows format body.now result }
    {
        use BackendMessageFormat as Format;
        if body.len() > MAX_BODY {
            return Err(ProtocolFault::BodyTooLong(body.len()));
        }
        Ok(match format {
            Format::Authentication => ServerMessageRef::Authentication(body),
            Format::BackendKeyData => ServerMessageRef::BackendKeyData(BackendKeyData::read(body)?),
            Format::BindComplete => ServerMessageRef::BindComplete,
            Format::CloseComplete => ServerMessageRef::CloseComplete,
            Format::CommandComplete => ServerMessageRef::CommandComplete(body),
            Format::CopyData => ServerMessageRef::CopyData(body),
            Format::CopyDone => ServerMessageRef::CopyDone,
            Format::CopyInResponse => ServerMessageRef::CopyInResponse(body),
            Format::CopyOutResponse => ServerMessageRef::CopyOutResponse(body),
            Format::DataRow => ServerMessageRef::DataRow(RowReader::new(body)?),
            Format::EmptyQueryResponse => ServerMessageRef::EmptyQueryResponse,
            Format::ErrorResponse => ServerMessageRef::ErrorResponse(Fields::new(body)),
            Format::NoData => ServerMessageRef::NoData,
            Format::NoticeResponse => ServerMessageRef::NoticeResponse(Fields::new(body)),
            Format::NotificationResponse => {
                ServerMessageRef::NotificationResponse(NotificationRef::read(body)?)
            }
            Format::ParameterDescription => ServerMessageRef::ParameterDescription(body),
            Format::ParameterStatus => {
                ServerMessageRef::ParameterStatus(ParameterStatusRef::read(body)?)
            }
            Format::ParseComplete => ServerMessageRef::ParseComplete,
            Format::PortalSuspended => ServerMessageRef::PortalSuspended,
            Format::ReadyForQuery => ServerMessageRef::ReadyForQuery(ReadyForQuery::read(body)?),
            Format::RowDescription => ServerMessageRef::RowDescription(ColumnReader::new(body)?),
        })
    }
}
