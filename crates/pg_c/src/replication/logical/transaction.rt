//! The messages of a transaction, beside its changes, as they are given.

ghost use Rattle.std.specs.Prelude.{◌≡◌};
ghost use Rattle.pg_c.specs.Place.{span_of};
ghost use Rattle.pg_c.specs.Replication.Logical.{given_begin, given_commit, given_origin};
ghost use Rattle.pg_c.specs.Replication.Logical.{given_stream_start, given_stream_commit};
ghost use Rattle.pg_c.specs.Replication.Logical.{given_stream_abort, given_begin_prepare};
ghost use Rattle.pg_c.specs.Replication.Logical.{given_prepared, given_rollback_prepared};
ghost use Rattle.pg_c.specs.Replication.Logical.Places.{placed_message};

use crate::place::span;
use crate::replication::logical::read::{PgmsgLogical, begun, fields_after};
use pg_replication::logical::{
    Begin, BeginPrepare, Commit, Message, Origin, Prepared, RollbackPrepared, StreamAbort,
    StreamCommit, StreamStart,
};

// The bytes of the fields before the prefix of a Message: flags and a position.
const BEFORE_PREFIX: usize = 9;

// Those between the prefix and the content: a NUL and a length.
const BEFORE_CONTENT: usize = 5;

// The letter and the bytes of the fields before the name of an Origin: a position.
const BEFORE_ORIGIN: usize = 9;

// Those before the name of a transaction to be prepared: two positions, a clock and the transaction's number.
const BEFORE_GID: usize = 29;

// Those before the name of a prepared one: flags too.
const BEFORE_PREPARED_GID: usize = 30;

// Those before the name of one that is undone: a second clock too.
const BEFORE_UNDONE_GID: usize = 38;

pub(crate) fn given_begin(begin: &Begin) -> PgmsgLogical
    ensures { result ≡ given_begin begin.now }
{
    PgmsgLogical {
        lsn: begin.final_lsn,
        clock: begin.clock,
        ..begun(b'B', Some(begin.transaction))
    }
}

pub(crate) fn given_message(message: &Message<'_>) -> PgmsgLogical
    ensures { result ≡ placed_message message.now }
{
    let at = fields_after(message.transaction) + BEFORE_PREFIX;
    PgmsgLogical {
        flags: message.flags,
        lsn: message.lsn,
        name: span(at, message.prefix),
        content: span(at + message.prefix.len() + BEFORE_CONTENT, message.content),
        ..begun(b'M', message.transaction)
    }
}

pub(crate) fn given_commit(commit: &Commit) -> PgmsgLogical
    ensures { result ≡ given_commit commit.now }
{
    PgmsgLogical {
        flags: commit.flags,
        lsn: commit.lsn,
        end_lsn: commit.end_lsn,
        clock: commit.clock,
        ..begun(b'C', None)
    }
}

pub(crate) fn given_origin(origin: &Origin<'_>) -> PgmsgLogical
    ensures { result ≡ given_origin origin.now (span_of 9 origin.now.name.now) }
{
    PgmsgLogical {
        lsn: origin.lsn,
        name: span(BEFORE_ORIGIN, origin.name),
        ..begun(b'O', None)
    }
}

pub(crate) fn given_stream_start(start: &StreamStart) -> PgmsgLogical
    ensures { result ≡ given_stream_start start.now }
{
    PgmsgLogical {
        is_first: start.is_first,
        ..begun(b'S', Some(start.transaction))
    }
}

pub(crate) fn given_stream_commit(commit: &StreamCommit) -> PgmsgLogical
    ensures { result ≡ given_stream_commit commit.now }
{
    PgmsgLogical {
        flags: commit.flags,
        lsn: commit.lsn,
        end_lsn: commit.end_lsn,
        clock: commit.clock,
        ..begun(b'c', Some(commit.transaction))
    }
}

pub(crate) fn given_stream_abort(abort: &StreamAbort) -> PgmsgLogical
    ensures { result ≡ given_stream_abort abort.now }
{
    PgmsgLogical {
        subtransaction: abort.subtransaction,
        ..begun(b'A', Some(abort.transaction))
    }
}

pub(crate) fn given_begin_prepare(prepare: &BeginPrepare<'_>) -> PgmsgLogical
    ensures { result ≡ given_begin_prepare prepare.now (span_of 29 prepare.now.gid.now) }
{
    PgmsgLogical {
        lsn: prepare.lsn,
        end_lsn: prepare.end_lsn,
        clock: prepare.clock,
        name: span(BEFORE_GID, prepare.gid),
        ..begun(b'b', Some(prepare.transaction))
    }
}

pub(crate) fn given_prepared(letter: u8, prepared: &Prepared<'_>) -> PgmsgLogical
    ensures { result ≡ given_prepared letter prepared.now (span_of 30 prepared.now.gid.now) }
{
    PgmsgLogical {
        flags: prepared.flags,
        lsn: prepared.lsn,
        end_lsn: prepared.end_lsn,
        clock: prepared.clock,
        name: span(BEFORE_PREPARED_GID, prepared.gid),
        ..begun(letter, Some(prepared.transaction))
    }
}

pub(crate) fn given_rollback_prepared(undone: &RollbackPrepared<'_>) -> PgmsgLogical
    ensures { result ≡ given_rollback_prepared undone.now (span_of 38 undone.now.gid.now) }
{
    PgmsgLogical {
        flags: undone.flags,
        end_lsn: undone.prepare_end_lsn,
        rollback_end_lsn: undone.rollback_end_lsn,
        clock: undone.prepare_clock,
        rollback_clock: undone.rollback_clock,
        name: span(BEFORE_UNDONE_GID, undone.gid),
        ..begun(b'r', Some(undone.transaction))
    }
}
