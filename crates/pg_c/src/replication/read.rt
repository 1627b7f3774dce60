//! The messages of replication, read where they are.

ghost use Rattle.std.specs.Prelude.{◌≡◌, ◌≤ℤ◌, ◌+◌, pos, length, Ok};
ghost use Rattle.pg_replication.specs.ReplicationMessage.{ReadsReplication};
ghost use Rattle.pg_c.specs.Place.{span_of, nowhere};
ghost use Rattle.pg_c.specs.Read.{IsBodyFault, LeavesRest};
ghost use Rattle.pg_c.specs.Refusal.{RefusesFor};
ghost use Rattle.pg_c.specs.Replication.{BreaksReplication, ReadsMessage, ReadsContent, IsGivenAs};
ghost use Rattle.pg_c.specs.Replication.{
  given_backup,
  given_feedback,
  given_keepalive,
  given_log,
  given_status,
};

use crate::place::{NOWHERE, PgmsgSpan, span};
use crate::read::check_body;
use crate::refusal::{PgmsgFault, report};
use pg_base::ProtocolFault;
use pg_replication::{
    HotStandbyFeedback, NewArchive, PrimaryKeepalive, ReplicationMessage, StandbyStatusUpdate,
    XLogData,
};
use std::alloc::Global;

// The bytes before the fields: the letter.
const LETTER_LENGTH: usize = 1;

// Those before a piece of the log: the letter, two positions and a clock.
const BEFORE_LOG: usize = 25;

const NOTHING: PgmsgReplication = PgmsgReplication {
    letter: 0,
    start: 0,
    end: 0,
    written: 0,
    flushed: 0,
    applied: 0,
    processed: 0,
    clock: 0,
    wants_reply: false,
    xmin: 0,
    xmin_epoch: 0,
    catalog_xmin: 0,
    catalog_xmin_epoch: 0,
    name: NOWHERE,
    location: NOWHERE,
    content: NOWHERE,
};

/// What the data of a CopyData says in replication, by the letter that it begins with (PostgreSQL's documentation,
/// "Streaming Replication Protocol"). From the server: `w`, XLogData, has in `content` a piece of the log that begins
/// at `start`, of a log that ends at `end`. `k`, Primary keepalive: the log ends at `end`, and `wants_reply` asks the
/// client to answer at once. From the client: `r`, Standby status update, has the positions after the last byte that
/// was `written`, `flushed` and `applied`, and `wants_reply` asks the server. `h`, Hot standby feedback: the oldest
/// transactions that the client needs, `xmin`, and `catalog_xmin` of its slots, each with its epoch, and 0 for none.
/// From the server in a backup: `n`, a new archive, has the `name` of its file, and the `location` of its tablespace,
/// which is empty for the main folder of the data. `m`: the manifest begins. `d`: `content` is a part of the archive
/// or the manifest that began last. `p`: so many bytes were `processed`. Positions count the bytes of the log. `clock`
/// of `w`, `k`, `r` and `h` is the sender's, in microseconds since the beginning of the year 2000. What a message
/// hasn't is 0, false or empty.
#[repr(C)]
#[derive(Clone, Copy)]
pub struct PgmsgReplication {
    pub letter: u8,
    pub start: u64,
    pub end: u64,
    pub written: u64,
    pub flushed: u64,
    pub applied: u64,
    pub processed: u64,
    pub clock: i64,
    pub wants_reply: bool,
    pub xmin: u32,
    pub xmin_epoch: u32,
    pub catalog_xmin: u32,
    pub catalog_xmin_epoch: u32,
    pub name: PgmsgSpan,
    pub location: PgmsgSpan,
    pub content: PgmsgSpan,
}

/// What the data of a CopyData says in replication, of either side. Places are in `content`. 0, or why it is refused:
/// of a letter of no kind with
/// PGMSG_UNKNOWN_MESSAGE_TYPE, and where bytes follow the last part of a message with PGMSG_TRAILING_BYTES.
#[unsafe(no_mangle)]
pub extern "C" fn pgmsg_read_replication(
    alloc: Global,
    content: &[u8],
    message: &mut PgmsgReplication,
    fault: &mut PgmsgFault,
) -> i32
    ensures result { result ≤ℤ pos 0 }
    ensures value { result ≡ pos 0 → ReadsMessage content.now message.new }
    ensures fault { RefusesFor (IsBodyFault BreaksReplication content.now) fault.old fault.new result }
    ensures left { LeavesRest content.now fault.old fault.new message.old message.new result }
{
    match message_of(content) {
        Ok(read) => {
            *message = given(content, &read);
            0
        }
        Err(why) => report(alloc, why.into(), fault),
    }
}

fn message_of(content: &[u8]) -> Result<ReplicationMessage<'_>, ProtocolFault>
    ensures { ReadsContent content.now result }
{
    check_body(content)?;
    ReplicationMessage::read(content)
}

// The message as it is given.
fn given(content: &[u8], message: &ReplicationMessage<'_>) -> PgmsgReplication
    requires { ReadsReplication content.now (Ok message.now) }
    ensures { IsGivenAs content.now message.now result }
{
    match message {
        ReplicationMessage::XLogData(piece) => given_log(piece),
        ReplicationMessage::PrimaryKeepalive(keepalive) => given_keepalive(keepalive),
        ReplicationMessage::StandbyStatusUpdate(status) => given_status(status),
        ReplicationMessage::HotStandbyFeedback(feedback) => given_feedback(feedback),
        ReplicationMessage::NewArchive(archive) => given_archive(archive),
        ReplicationMessage::Manifest(_) => PgmsgReplication {
            letter: b'm',
            ..NOTHING
        },
        ReplicationMessage::BackupData(data) => PgmsgReplication {
            letter: b'd',
            content: span(LETTER_LENGTH, data.content),
            ..NOTHING
        },
        ReplicationMessage::Progress(progress) => PgmsgReplication {
            letter: b'p',
            processed: progress.processed,
            ..NOTHING
        },
    }
}

fn given_log(piece: &XLogData<'_>) -> PgmsgReplication
    ensures { result ≡ given_log piece.now (span_of 25 piece.now.content.now) }
{
    PgmsgReplication {
        letter: b'w',
        start: piece.start,
        end: piece.end,
        clock: piece.clock,
        content: span(BEFORE_LOG, piece.content),
        ..NOTHING
    }
}

fn given_keepalive(keepalive: &PrimaryKeepalive) -> PgmsgReplication
    ensures { result ≡ given_keepalive keepalive.now }
{
    PgmsgReplication {
        letter: b'k',
        end: keepalive.end,
        clock: keepalive.clock,
        wants_reply: keepalive.wants_reply,
        ..NOTHING
    }
}

fn given_status(status: &StandbyStatusUpdate) -> PgmsgReplication
    ensures { result ≡ given_status status.now }
{
    PgmsgReplication {
        letter: b'r',
        written: status.written,
        flushed: status.flushed,
        applied: status.applied,
        clock: status.clock,
        wants_reply: status.wants_reply,
        ..NOTHING
    }
}

fn given_feedback(feedback: &HotStandbyFeedback) -> PgmsgReplication
    ensures { result ≡ given_feedback feedback.now }
{
    PgmsgReplication {
        letter: b'h',
        clock: feedback.clock,
        xmin: feedback.xmin,
        xmin_epoch: feedback.xmin_epoch,
        catalog_xmin: feedback.catalog_xmin,
        catalog_xmin_epoch: feedback.catalog_xmin_epoch,
        ..NOTHING
    }
}

fn given_archive(archive: &NewArchive<'_>) -> PgmsgReplication
    ensures { result ≡ given_backup 110 0 (span_of 1 archive.now.name.now)
        (span_of (1 + length archive.now.name.now + 1) archive.now.location.now) nowhere }
{
    PgmsgReplication {
        letter: b'n',
        name: span(LETTER_LENGTH, archive.name),
        location: span(LETTER_LENGTH + archive.name.len() + 1, archive.location),
        ..NOTHING
    }
}
