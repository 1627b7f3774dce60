//! The server's word that it is ready for the next query.

ghost use Rattle.pg_format.specs.Format.{ReadsAs};
ghost use Rattle.pg_format.specs.Messages.{ready_for_query};
ghost use Rattle.pg_receive.specs.ReadyForQuery.{ready_shown};
ghost use Rattle.pg_base.specs.declared.format.BackendMessageFormat.TheVariants as formats;

use crate::message::BackendMessage;
use bytes::Bytes;
use pg_base::io::bytes_at;
use pg_base::{BackendMessageFormat, Error, ProtocolFault};
use std::alloc::Global;

// The letters of statuses.
const IDLE: u8 = b'I';

const TRANSACTION: u8 = b'T';

const ERROR: u8 = b'E';

/// Whether a transaction is open. As a number it is the letter of the message.
#[derive(Clone, Copy, Debug, PartialEq, Eq)]
pub enum TransactionStatus {
    /// No transaction is open.
    Idle = IDLE as isize,
    /// One is open.
    Transaction = TRANSACTION as isize,
    /// One is open and has failed; until it ends the server refuses queries.
    Error = ERROR as isize,
}

/// The server is ready for the next query. Documentation: "Message Formats", ReadyForQuery (B).
#[derive(Clone, Copy, Debug, PartialEq, Eq)]
pub struct ReadyForQuery {
    /// Whether a transaction is open.
    pub transaction_status: TransactionStatus,
}

impl ReadyForQuery {
    /// Reads the body of a message: its first byte is the letter of the status. Refused with
    /// `Short` where there is none, and with `UnknownStatus` where it is no such letter.
    pub fn read(body: &[u8]) -> Result<ReadyForQuery, ProtocolFault>
        ensures { ReadsAs ready_for_query ready_shown body.now result }
    {
        let transaction_status = match bytes_at(body, 0, 1)?[0] {
            IDLE => TransactionStatus::Idle,
            TRANSACTION => TransactionStatus::Transaction,
            ERROR => TransactionStatus::Error,
            status => return Err(ProtocolFault::UnknownStatus(status)),
        };
        Ok(ReadyForQuery { transaction_status })
    }
}

impl BackendMessage for ReadyForQuery {
    ghost use Rattle.pg_format.specs.Messages.{Status, ready_for_query};
    ghost use Rattle.pg_format.proofs.FormatLaws.FromServer.{lawful_ready_for_query};
    ghost use Rattle.pg_receive.specs.ReadyForQuery.{ready_shown};

    const FORMAT: BackendMessageFormat = BackendMessageFormat::ReadyForQuery;

    ghost FORMAT = { formats.ReadyForQuery };

    ghost Shown = { Status };

    ghost shown = { ready_shown };

    ghost format = { ready_for_query };

    ghost NeedsNoMemory = { λ _. Unit {0} };

    fn decode_body(_alloc: Global, buf: Bytes) -> Result<Self, Error> {
        Ok(ReadyForQuery::read(buf.as_slice())?)
    }

    ghost lawful = { lawful_ready_for_query };
}
