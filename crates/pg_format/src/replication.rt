//! The kinds of messages of replication.

ghost use Rattle.std.specs.Prelude.{◌≡◌, IfSome, IfNone};
ghost use Rattle.pg_format.specs.Replication.{replication_letter, IsNoLetter};

/// What the data of a CopyData is while a server streams its log or a backup. As a number it is the letter that
/// the data begins with. Documentation: "Streaming Replication Protocol".
#[derive(Clone, Copy, Debug, PartialEq, Eq)]
pub enum ReplicationKind {
    /// A piece of the log, from the server.
    XLogData = b'w' as isize,
    /// The server is there.
    PrimaryKeepalive = b'k' as isize,
    /// How far a client has come.
    StandbyStatusUpdate = b'r' as isize,
    /// Which transactions a client needs.
    HotStandbyFeedback = b'h' as isize,
    /// An archive of a backup begins.
    NewArchive = b'n' as isize,
    /// The manifest of a backup begins.
    Manifest = b'm' as isize,
    /// Bytes of an archive or of a manifest.
    BackupData = b'd' as isize,
    /// How far a backup has come.
    Progress = b'p' as isize,
}

impl ReplicationKind {
    /// The kind of a letter, or `None` where no kind has it.
    pub fn of_letter(letter: u8) -> Option<ReplicationKind>
        ensures known { IfSome result (λ kind. replication_letter kind ≡ letter) }
        ensures unknown { IfNone result (IsNoLetter letter) }
    {
        Some(match letter {
            b'w' => ReplicationKind::XLogData,
            b'k' => ReplicationKind::PrimaryKeepalive,
            b'r' => ReplicationKind::StandbyStatusUpdate,
            b'h' => ReplicationKind::HotStandbyFeedback,
            b'n' => ReplicationKind::NewArchive,
            b'm' => ReplicationKind::Manifest,
            b'd' => ReplicationKind::BackupData,
            b'p' => ReplicationKind::Progress,
            _ => return None,
        })
    }
}
