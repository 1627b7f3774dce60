//! The messages of replication, each written as a whole CopyData.

ghost use Rattle.std.specs.Prelude.{◌≡◌};
ghost use Rattle.pg_c.specs.Replication.{content_of, PutsReplication, log_of, keepalive_of, status_of, feedback_of};
ghost use Rattle.pg_c.specs.Server.{PutsServerMessage};

use crate::refusal::UNKNOWN_MESSAGE_TYPE;
use crate::server::put;
use pg_replication::{
    BackupData, HotStandbyFeedback, Manifest, NewArchive, PrimaryKeepalive, Progress,
    ReplicationKind, StandbyStatusUpdate, XLogData,
};

/// A message of replication that is written: its letter, and its parts as `pgmsg_replication` has them. What is no part
/// of it is passed over.
#[repr(C)]
#[derive(Clone, Copy)]
pub struct PgmsgReplicationText<'a> {
    pub letter: u8,
    pub start: u64,
    pub end: u64,
    pub written: u64,
    pub flushed: u64,
    pub applied: u64,
    pub processed: u64,
    pub clock: i64,
    pub wants_reply: bool,
    pub xmin: u32,
    pub xmin_epoch: u32,
    pub catalog_xmin: u32,
    pub catalog_xmin_epoch: u32,
    pub name: &'a [u8],
    pub location: &'a [u8],
    pub content: &'a [u8],
}

/// A message of replication, as a whole CopyData. One of a letter of no kind is refused with
/// PGMSG_UNKNOWN_MESSAGE_TYPE, a NUL in a `name` or a `location` with PGMSG_TEXT_HOLDS_NUL, and a message that is
/// longer than a length field can say with PGMSG_MESSAGE_TOO_LONG.
#[unsafe(no_mangle)]
pub extern "C" fn pgmsg_put_replication(message: &PgmsgReplicationText<'_>, out: &mut [u8]) -> isize
    ensures { PutsReplication message.now out.old out.new result }
{
    match ReplicationKind::of_letter(message.letter) {
        Some(kind) => put_kind(kind, message, out),
        None => UNKNOWN_MESSAGE_TYPE as isize,
    }
}

fn put_kind(kind: ReplicationKind, message: &PgmsgReplicationText<'_>, out: &mut [u8]) -> isize
    ensures { PutsServerMessage (content_of message.now kind) out.old out.new result }
{
    match kind {
        ReplicationKind::XLogData => put(&log_of(message), out),
        ReplicationKind::PrimaryKeepalive => put(&keepalive_of(message), out),
        ReplicationKind::StandbyStatusUpdate => put(&status_of(message), out),
        ReplicationKind::HotStandbyFeedback => put(&feedback_of(message), out),
        ReplicationKind::NewArchive => {
            let archive = NewArchive {
                name: message.name,
                location: message.location,
            };
            put(&archive, out)
        }
        ReplicationKind::Manifest => put(&Manifest, out),
        ReplicationKind::BackupData => {
            let data = BackupData {
                content: message.content,
            };
            put(&data, out)
        }
        ReplicationKind::Progress => {
            let progress = Progress {
                processed: message.processed,
            };
            put(&progress, out)
        }
    }
}

fn log_of<'a>(message: &PgmsgReplicationText<'a>) -> XLogData<'a>
    ensures { result ≡ log_of message.now }
{
    XLogData {
        start: message.start,
        end: message.end,
        clock: message.clock,
        content: message.content,
    }
}

fn keepalive_of(message: &PgmsgReplicationText<'_>) -> PrimaryKeepalive
    ensures { result ≡ keepalive_of message.now }
{
    PrimaryKeepalive {
        end: message.end,
        clock: message.clock,
        wants_reply: message.wants_reply,
    }
}

fn status_of(message: &PgmsgReplicationText<'_>) -> StandbyStatusUpdate
    ensures { result ≡ status_of message.now }
{
    StandbyStatusUpdate {
        written: message.written,
        flushed: message.flushed,
        applied: message.applied,
        clock: message.clock,
        wants_reply: message.wants_reply,
    }
}

fn feedback_of(message: &PgmsgReplicationText<'_>) -> HotStandbyFeedback
    ensures { result ≡ feedback_of message.now }
{
    HotStandbyFeedback {
        clock: message.clock,
        xmin: message.xmin,
        xmin_epoch: message.xmin_epoch,
        catalog_xmin: message.catalog_xmin,
        catalog_xmin_epoch: message.catalog_xmin_epoch,
    }
}
