//! The messages of a transaction, beside its changes, as a C program passes them.

ghost use Rattle.std.specs.Prelude.{◌≡◌};
ghost use Rattle.pg_replication.specs.Logical.{shown_begin, shown_message, shown_commit};
ghost use Rattle.pg_replication.specs.Logical.{shown_origin, shown_stream_start};
ghost use Rattle.pg_replication.specs.Logical.{shown_stream_commit, shown_stream_abort};
ghost use Rattle.pg_replication.specs.Logical.{shown_begin_prepare, shown_prepared};
ghost use Rattle.pg_replication.specs.Logical.{shown_rollback_prepared};
ghost use Rattle.pg_c.specs.Replication.Logical.Put.{begin_of, emitted_of, commit_of, origin_of, start_of};
ghost use Rattle.pg_c.specs.Replication.Logical.Put.{stream_commit_of, abort_of, begin_prepare_of};
ghost use Rattle.pg_c.specs.Replication.Logical.Put.{prepared_of, undone_of, transaction_of};

use crate::replication::logical::put::PgmsgLogicalText;
use pg_replication::logical::{
    Begin, BeginPrepare, Commit, Message, Origin, Prepared, RollbackPrepared, StreamAbort,
    StreamCommit, StreamStart,
};

pub(crate) fn begin_of(text: &PgmsgLogicalText<'_>) -> Begin
    ensures { shown_begin result ≡ begin_of text.now }
{
    Begin {
        final_lsn: text.lsn,
        clock: text.clock,
        transaction: text.transaction,
    }
}

pub(crate) fn emitted_of<'a>(text: &PgmsgLogicalText<'a>) -> Message<'a>
    ensures { shown_message result ≡ emitted_of text.now }
{
    Message {
        transaction: transaction_of(text),
        flags: text.flags,
        lsn: text.lsn,
        prefix: text.name,
        content: text.content,
    }
}

pub(crate) fn commit_of(text: &PgmsgLogicalText<'_>) -> Commit
    ensures { shown_commit result ≡ commit_of text.now }
{
    Commit {
        flags: text.flags,
        lsn: text.lsn,
        end_lsn: text.end_lsn,
        clock: text.clock,
    }
}

pub(crate) fn origin_of<'a>(text: &PgmsgLogicalText<'a>) -> Origin<'a>
    ensures { shown_origin result ≡ origin_of text.now }
{
    Origin {
        lsn: text.lsn,
        name: text.name,
    }
}

pub(crate) fn start_of(text: &PgmsgLogicalText<'_>) -> StreamStart
    ensures { shown_stream_start result ≡ start_of text.now }
{
    StreamStart {
        transaction: text.transaction,
        is_first: text.is_first,
    }
}

pub(crate) fn stream_commit_of(text: &PgmsgLogicalText<'_>) -> StreamCommit
    ensures { shown_stream_commit result ≡ stream_commit_of text.now }
{
    StreamCommit {
        transaction: text.transaction,
        flags: text.flags,
        lsn: text.lsn,
        end_lsn: text.end_lsn,
        clock: text.clock,
    }
}

pub(crate) fn abort_of(text: &PgmsgLogicalText<'_>) -> StreamAbort
    ensures { shown_stream_abort result ≡ abort_of text.now }
{
    StreamAbort {
        transaction: text.transaction,
        subtransaction: text.subtransaction,
    }
}

pub(crate) fn begin_prepare_of<'a>(text: &PgmsgLogicalText<'a>) -> BeginPrepare<'a>
    ensures { shown_begin_prepare result ≡ begin_prepare_of text.now }
{
    BeginPrepare {
        lsn: text.lsn,
        end_lsn: text.end_lsn,
        clock: text.clock,
        transaction: text.transaction,
        gid: text.name,
    }
}

pub(crate) fn prepared_of<'a>(text: &PgmsgLogicalText<'a>) -> Prepared<'a>
    ensures { shown_prepared result ≡ prepared_of text.now }
{
    Prepared {
        flags: text.flags,
        lsn: text.lsn,
        end_lsn: text.end_lsn,
        clock: text.clock,
        transaction: text.transaction,
        gid: text.name,
    }
}

pub(crate) fn undone_of<'a>(text: &PgmsgLogicalText<'a>) -> RollbackPrepared<'a>
    ensures { shown_rollback_prepared result ≡ undone_of text.now }
{
    RollbackPrepared {
        flags: text.flags,
        prepare_end_lsn: text.end_lsn,
        rollback_end_lsn: text.rollback_end_lsn,
        prepare_clock: text.clock,
        rollback_clock: text.rollback_clock,
        transaction: text.transaction,
        gid: text.name,
    }
}

/// The number of the transaction, where it is streamed.
pub(crate) fn transaction_of(text: &PgmsgLogicalText<'_>) -> Option<u32>
    ensures { result ≡ transaction_of text.now }
{
    if text.has_transaction {
        Some(text.transaction)
    } else {
        None
    }
}
