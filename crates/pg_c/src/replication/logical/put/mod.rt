//! The messages of logical replication, each written as the content of an XLogData.

mod change;
mod transaction;

ghost use Rattle.std.specs.Prelude.{◌≤◌, IfOk};
ghost use Rattle.pg_base.specs.Cutting.{max_length};
ghost use Rattle.pg_replication.specs.Logical.Encode.{says};
ghost use Rattle.pg_replication.specs.Logical.Tuple.{IsMade};
ghost use Rattle.pg_c.specs.Replication.Logical.Put.{letters_fault, said_of, IsMessageOf};
ghost use Rattle.pg_c.specs.Replication.Logical.Put.{IsWrittenOf, PutsLogical};

use crate::refusal::number_of_fault;
use pg_base::ProtocolFault;
use pg_replication::logical::{
    LogicalKind, LogicalMessage, OutboundDatum, StreamStop, TableColumn,
};

/// The value of a column in a row that is written. `kind` is as in `pgmsg_datum`; the `value` of an `n` or a `u` isn't
/// looked at.
pub type PgmsgDatumText<'a> = OutboundDatum<'a>;

/// A column of a table that is written. `flags` are as in `pgmsg_table_column`.
pub type PgmsgTableColumnText<'a> = TableColumn<'a>;

/// A message of logical replication that is written: its letter, and its parts as `pgmsg_logical` has them, with lists
/// in arrays. `old_values` are those of an `old_row`, and `values` those of a `new_row`. What is no part of it is passed
/// over.
#[repr(C)]
#[derive(Clone, Copy)]
pub struct PgmsgLogicalText<'a> {
    pub letter: u8,
    pub has_transaction: bool,
    pub transaction: u32,
    pub subtransaction: u32,
    pub flags: u8,
    pub is_first: bool,
    pub lsn: u64,
    pub end_lsn: u64,
    pub rollback_end_lsn: u64,
    pub clock: i64,
    pub rollback_clock: i64,
    pub relation: u32,
    pub type_id: u32,
    pub replica_identity: u8,
    pub schema: &'a [u8],
    pub name: &'a [u8],
    pub content: &'a [u8],
    pub columns: &'a [PgmsgTableColumnText<'a>],
    pub relations: &'a [u32],
    pub old_letter: u8,
    pub old_values: &'a [PgmsgDatumText<'a>],
    pub values: &'a [PgmsgDatumText<'a>],
}

/// A message of logical replication, as the content of an XLogData, which `pgmsg_put_replication` writes as a CopyData
/// of the letter `w`. Refused with PGMSG_UNKNOWN_MESSAGE_TYPE where its letter is of no kind, and with
/// PGMSG_UNKNOWN_LETTER where that of an old row or of a value in its rows is; then for the first of its parts that breaks
/// a limit, with PGMSG_TOO_MANY where a row has more than 65535 values or a table more columns, or with
/// PGMSG_TEXT_HOLDS_NUL for a NUL in a `schema` or a `name`, also of a column; then with PGMSG_MESSAGE_TOO_LONG where it is
/// longer than 2147483643 bytes.
#[unsafe(no_mangle)]
pub extern "C" fn pgmsg_put_logical(message: &PgmsgLogicalText<'_>, out: &mut [u8]) -> isize
    ensures { PutsLogical message.now out.old out.new result }
{
    match write(message, out) {
        Ok(len) => len as isize,
        Err(fault) => number_of_fault(fault) as isize,
    }
}

fn write(text: &PgmsgLogicalText<'_>, out: &mut [u8]) -> Result<usize, ProtocolFault>
    ensures written { IsWrittenOf text.now out.old out.new result }
    ensures small { IfOk result (λ len. len ≤ max_length) }
{
    message_of(text)?.write(out)
}

fn message_of<'a>(text: &PgmsgLogicalText<'a>) -> Result<LogicalMessage<'a>, ProtocolFault>
    ensures { IsMessageOf text.now result }
{
    match LogicalKind::of_letter(text.letter) {
        Some(kind) => message_of_kind(kind, text),
        None => Err(ProtocolFault::UnknownMessageType(text.letter)),
    }
}

fn message_of_kind<'a>(
    kind: LogicalKind,
    text: &PgmsgLogicalText<'a>,
) -> Result<LogicalMessage<'a>, ProtocolFault>
    ensures { IsMade says (letters_fault text.now kind) (said_of text.now kind) result }
{
    Ok(match kind {
        LogicalKind::Begin => LogicalMessage::Begin(transaction::begin_of(text)),
        LogicalKind::Message => LogicalMessage::Message(transaction::emitted_of(text)),
        LogicalKind::Commit => LogicalMessage::Commit(transaction::commit_of(text)),
        LogicalKind::Origin => LogicalMessage::Origin(transaction::origin_of(text)),
        LogicalKind::Relation => LogicalMessage::Relation(change::relation_of(text)),
        LogicalKind::TypeName => LogicalMessage::TypeName(change::type_name_of(text)),
        LogicalKind::Insert => LogicalMessage::Insert(change::insert_of(text)?),
        LogicalKind::Update => LogicalMessage::Update(change::update_of(text)?),
        LogicalKind::Delete => LogicalMessage::Delete(change::delete_of(text)?),
        LogicalKind::Truncate => LogicalMessage::Truncate(change::truncate_of(text)),
        LogicalKind::StreamStart => LogicalMessage::StreamStart(transaction::start_of(text)),
        LogicalKind::StreamStop => LogicalMessage::StreamStop(StreamStop),
        LogicalKind::StreamCommit => {
            LogicalMessage::StreamCommit(transaction::stream_commit_of(text))
        }
        LogicalKind::StreamAbort => LogicalMessage::StreamAbort(transaction::abort_of(text)),
        LogicalKind::BeginPrepare => {
            LogicalMessage::BeginPrepare(transaction::begin_prepare_of(text))
        }
        LogicalKind::Prepare => LogicalMessage::Prepare(transaction::prepared_of(text)),
        LogicalKind::CommitPrepared => {
            LogicalMessage::CommitPrepared(transaction::prepared_of(text))
        }
        LogicalKind::RollbackPrepared => {
            LogicalMessage::RollbackPrepared(transaction::undone_of(text))
        }
        LogicalKind::StreamPrepare => LogicalMessage::StreamPrepare(transaction::prepared_of(text)),
    })
}
