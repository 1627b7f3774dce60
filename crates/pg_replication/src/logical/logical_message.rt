//! Any message of logical replication.

ghost use Rattle.std.specs.Prelude.{◌≤◌, ◌<◌, length};
ghost use Rattle.pg_replication.specs.Lettered.{IsTooLong};
ghost use Rattle.pg_replication.specs.Logical.{ReadsLogical, ReadsLogicalKind};

use crate::logical::{
    Begin, BeginPrepare, Commit, Delete, Insert, Message, Origin, Prepared, Relation,
    RollbackPrepared, StreamAbort, StreamCommit, StreamStart, StreamStop, Truncate, TypeName,
    Update,
};
use pg_base::ProtocolFault;
use pg_base::io::{MAX_BODY, u8_at};
use pg_format::LogicalKind;

// Where the fields begin, after the letter.
const FIRST: usize = 1;

/// What a server streams of the changes of its tables, borrowed from the message. Documentation: "Logical Replication
/// Message Formats".
#[derive(Clone, Copy)]
pub enum LogicalMessage<'a> {
    /// A transaction begins.
    Begin(Begin),
    /// A message that a program wrote to the log.
    Message(Message<'a>),
    /// The transaction is committed.
    Commit(Commit),
    /// The transaction came from another server.
    Origin(Origin<'a>),
    /// A table and its columns.
    Relation(Relation<'a>),
    /// The name of a type.
    TypeName(TypeName<'a>),
    /// A new row.
    Insert(Insert<'a>),
    /// A row that is changed.
    Update(Update<'a>),
    /// A row that is deleted.
    Delete(Delete<'a>),
    /// Tables that are emptied.
    Truncate(Truncate<'a>),
    /// Messages of a streamed transaction follow.
    StreamStart(StreamStart),
    /// The end of these messages.
    StreamStop(StreamStop),
    /// A streamed transaction is committed.
    StreamCommit(StreamCommit),
    /// A streamed transaction is undone, or a part of it.
    StreamAbort(StreamAbort),
    /// A transaction begins that is prepared.
    BeginPrepare(BeginPrepare<'a>),
    /// It is prepared.
    Prepare(Prepared<'a>),
    /// A prepared transaction is committed.
    CommitPrepared(Prepared<'a>),
    /// A prepared transaction is undone.
    RollbackPrepared(RollbackPrepared<'a>),
    /// A streamed transaction is prepared.
    StreamPrepare(Prepared<'a>),
}

impl<'a> LogicalMessage<'a> {
    /// Reads a message: the content of an XLogData, or a row of `pg_logical_slot_get_binary_changes`. `streamed` says
    /// that it stands between a Stream Start and a Stream Stop, where seven kinds begin with the number of their
    /// transaction; [`LogicalStream`](crate::logical::LogicalStream) keeps track of it. Refused with
    /// `UnknownMessageType` where no kind has this letter, and as the reader of its kind refuses it; a message of more
    /// than [`MAX_BODY`] bytes with `BodyTooLong`. A fault's offset counts from the letter on.
    pub fn read(message: &'a [u8], streamed: bool) -> Result<LogicalMessage<'a>, ProtocolFault>
        ensures read { length message.now ≤ MAX_BODY → ReadsLogical streamed message.now result }
        ensures long { MAX_BODY < length message.now → IsTooLong message.now result }
    {
        if message.len() > MAX_BODY {
            return Err(ProtocolFault::BodyTooLong(message.len()));
        }
        let letter = u8_at(message, 0)?;
        match LogicalKind::of_letter(letter) {
            Some(kind) => LogicalMessage::read_as(kind, message, streamed),
            None => Err(ProtocolFault::UnknownMessageType(letter)),
        }
    }

    // Reads what follows the letter of a kind.
    fn read_as(
        kind: LogicalKind,
        message: &'a [u8],
        streamed: bool,
    ) -> Result<LogicalMessage<'a>, ProtocolFault>
        requires some { 1 ≤ length message.now }
        requires short { length message.now ≤ MAX_BODY }
        ensures { ReadsLogicalKind streamed kind message.now result }
    {
        match kind {
            LogicalKind::Begin => { Ok(LogicalMessage::Begin(Begin::read(message, FIRST)?)) }
            LogicalKind::Message => {
                Ok(LogicalMessage::Message(Message::read(message, FIRST, streamed)?))
            }
            LogicalKind::Commit => { Ok(LogicalMessage::Commit(Commit::read(message, FIRST)?)) }
            LogicalKind::Origin => { Ok(LogicalMessage::Origin(Origin::read(message, FIRST)?)) }
            LogicalKind::Relation => {
                Ok(LogicalMessage::Relation(Relation::read(message, FIRST, streamed)?))
            }
            LogicalKind::TypeName => {
                Ok(LogicalMessage::TypeName(TypeName::read(message, FIRST, streamed)?))
            }
            LogicalKind::Insert => {
                Ok(LogicalMessage::Insert(Insert::read(message, FIRST, streamed)?))
            }
            LogicalKind::Update => {
                Ok(LogicalMessage::Update(Update::read(message, FIRST, streamed)?))
            }
            LogicalKind::Delete => {
                Ok(LogicalMessage::Delete(Delete::read(message, FIRST, streamed)?))
            }
            LogicalKind::Truncate => {
                Ok(LogicalMessage::Truncate(Truncate::read(message, FIRST, streamed)?))
            }
            LogicalKind::StreamStart => {
                Ok(LogicalMessage::StreamStart(StreamStart::read(message, FIRST)?))
            }
            LogicalKind::StreamStop => {
                Ok(LogicalMessage::StreamStop(StreamStop::read(message, FIRST)?))
            }
            LogicalKind::StreamCommit => {
                Ok(LogicalMessage::StreamCommit(StreamCommit::read(message, FIRST)?))
            }
            LogicalKind::StreamAbort => {
                Ok(LogicalMessage::StreamAbort(StreamAbort::read(message, FIRST)?))
            }
            LogicalKind::BeginPrepare => {
                Ok(LogicalMessage::BeginPrepare(BeginPrepare::read(message, FIRST)?))
            }
            LogicalKind::Prepare => { Ok(LogicalMessage::Prepare(Prepared::read(message, FIRST)?)) }
            LogicalKind::CommitPrepared => {
                Ok(LogicalMessage::CommitPrepared(Prepared::read(message, FIRST)?))
            }
            LogicalKind::RollbackPrepared => {
                Ok(LogicalMessage::RollbackPrepared(RollbackPrepared::read(message, FIRST)?))
            }
            LogicalKind::StreamPrepare => {
                Ok(LogicalMessage::StreamPrepare(Prepared::read(message, FIRST)?))
            }
        }
    }
}
