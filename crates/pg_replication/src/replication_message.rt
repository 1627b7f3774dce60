//! Any message of replication.

ghost use Rattle.std.specs.Prelude.{◌≤◌, ◌<◌, length};
ghost use Rattle.pg_replication.specs.Lettered.{IsTooLong};
ghost use Rattle.pg_replication.specs.ReplicationMessage.{ReadsReplication, ReadsKind};

use crate::{
    BackupData, HotStandbyFeedback, Manifest, NewArchive, PrimaryKeepalive, Progress,
    StandbyStatusUpdate, XLogData,
};
use pg_base::ProtocolFault;
use pg_base::io::{MAX_BODY, u8_at};
use pg_format::ReplicationKind;

// Where the fields begin, after the letter.
const FIRST: usize = 1;

/// What the data of a CopyData says while a server streams its log or a backup, borrowed from the data.
/// Documentation: "Streaming Replication Protocol".
#[derive(Clone, Copy, Debug, PartialEq, Eq)]
pub enum ReplicationMessage<'a> {
    /// A piece of the log, from the server.
    XLogData(XLogData<'a>),
    /// The server is there.
    PrimaryKeepalive(PrimaryKeepalive),
    /// How far the client has come.
    StandbyStatusUpdate(StandbyStatusUpdate),
    /// Which transactions the client needs.
    HotStandbyFeedback(HotStandbyFeedback),
    /// An archive of a backup begins.
    NewArchive(NewArchive<'a>),
    /// The manifest of a backup begins.
    Manifest(Manifest),
    /// Bytes of an archive or of a manifest.
    BackupData(BackupData<'a>),
    /// How far the backup has come.
    Progress(Progress),
}

impl<'a> ReplicationMessage<'a> {
    /// Reads the data of a CopyData by its first byte. Refused with `UnknownMessageType` where no message has this
    /// letter, and as the reader of its kind refuses it; data of more than [`MAX_BODY`] bytes with `BodyTooLong`.
    pub fn read(message: &'a [u8]) -> Result<ReplicationMessage<'a>, ProtocolFault>
        ensures read { length message.now ≤ MAX_BODY → ReadsReplication message.now result }
        ensures long { MAX_BODY < length message.now → IsTooLong message.now result }
    {
        if message.len() > MAX_BODY {
            return Err(ProtocolFault::BodyTooLong(message.len()));
        }
        let letter = u8_at(message, 0)?;
        match ReplicationKind::of_letter(letter) {
            Some(kind) => ReplicationMessage::read_as(kind, message),
            None => Err(ProtocolFault::UnknownMessageType(letter)),
        }
    }

    // Reads what follows the letter of a kind.
    fn read_as(
        kind: ReplicationKind,
        message: &'a [u8],
    ) -> Result<ReplicationMessage<'a>, ProtocolFault>
        requires some { 1 ≤ length message.now }
        requires short { length message.now ≤ MAX_BODY }
        ensures { ReadsKind kind message.now result }
    {
        match kind {
            ReplicationKind::XLogData => {
                Ok(ReplicationMessage::XLogData(XLogData::read(message, FIRST)?))
            }
            ReplicationKind::PrimaryKeepalive => {
                Ok(ReplicationMessage::PrimaryKeepalive(PrimaryKeepalive::read(message, FIRST)?))
            }
            ReplicationKind::StandbyStatusUpdate => {
                Ok(ReplicationMessage::StandbyStatusUpdate(StandbyStatusUpdate::read(
                    message, FIRST,
                )?))
            }
            ReplicationKind::HotStandbyFeedback => {
                Ok(ReplicationMessage::HotStandbyFeedback(HotStandbyFeedback::read(
                    message, FIRST,
                )?))
            }
            ReplicationKind::NewArchive => {
                Ok(ReplicationMessage::NewArchive(NewArchive::read(message, FIRST)?))
            }
            ReplicationKind::Manifest => {
                Ok(ReplicationMessage::Manifest(Manifest::read(message, FIRST)?))
            }
            ReplicationKind::BackupData => {
                Ok(ReplicationMessage::BackupData(BackupData::read(message, FIRST)?))
            }
            ReplicationKind::Progress => {
                Ok(ReplicationMessage::Progress(Progress::read(message, FIRST)?))
            }
        }
    }
}
