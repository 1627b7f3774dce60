//! The messages of a backup.

ghost use Rattle.std.specs.Prelude.{◌≤◌, length};
ghost use Rattle.pg_format.specs.Format.Places.{ReadsAfter};
ghost use Rattle.pg_format.specs.Replication as page;
ghost use Rattle.pg_format.specs.declared.replication.ReplicationKind.TheVariants as kinds;
ghost use Rattle.pg_server.specs.Backend.Message.{Replication};
ghost use Rattle.pg_replication.specs.ReplicationMessage.{shown_new_archive, shown_manifest, shown_backup_data, shown_progress};

use pg_base::io::MAX_BODY;
use pg_base::io::part::{Byte, NoBytes, Number64, Slice, Then};
use pg_base::{FrontendMessageFormat, ProtocolFault};
use pg_format::ReplicationKind;
use pg_format::field::fields_from;
use pg_server::backend::{NulEnded, OutboundMessage};

/// An archive of a backup begins, in the format ustar. A NUL in a text is refused with `TextHoldsNul`.
/// Documentation: "Streaming Replication Protocol", BASE_BACKUP, new archive (B).
#[derive(Clone, Copy, Debug, PartialEq, Eq)]
pub struct NewArchive<'a> {
    /// The name of its file.
    pub name: &'a [u8],
    /// The folder of its tablespace; empty for the main folder of the data.
    pub location: &'a [u8],
}

impl<'a> NewArchive<'a> {
    /// Reads what follows the letter, which stands before an offset of a message.
    pub(crate) fn read(message: &'a [u8], at: usize) -> Result<NewArchive<'a>, ProtocolFault>
        requires within { at ≤ length message.now }
        requires short { length message.now ≤ MAX_BODY }
        ensures { ReadsAfter page.new_archive shown_new_archive message.now at result }
    {
        let Then(NulEnded(name), NulEnded(location)) = fields_from::<
            Then<NulEnded<'a>, NulEnded<'a>>,
        >(message, at)?;
        Ok(NewArchive { name, location })
    }
}

impl<'a> OutboundMessage for NewArchive<'a> {
    type Body = Then<Byte, Then<NulEnded<'a>, NulEnded<'a>>>;

    ghost message = { λ it. Replication kinds.NewArchive (shown_new_archive it) };

    fn tag(&self) -> u8 {
        FrontendMessageFormat::CopyData as u8
    }

    #[inline(always)]
    fn parts(&self) -> Self::Body {
        Then(
            Byte(ReplicationKind::NewArchive as u8),
            Then(NulEnded(self.name), NulEnded(self.location)),
        )
    }
}

/// The manifest of a backup begins. Documentation: "Streaming Replication Protocol", BASE_BACKUP, manifest (B).
#[derive(Clone, Copy, Debug, PartialEq, Eq)]
pub struct Manifest;

impl Manifest {
    /// Reads what follows the letter, which stands before an offset of a message.
    pub(crate) fn read(message: &[u8], at: usize) -> Result<Manifest, ProtocolFault>
        requires within { at ≤ length message.now }
        requires short { length message.now ≤ MAX_BODY }
        ensures { ReadsAfter page.manifest shown_manifest message.now at result }
    {
        let NoBytes = fields_from::<NoBytes>(message, at)?;
        Ok(Manifest)
    }
}

impl OutboundMessage for Manifest {
    type Body = Then<Byte, NoBytes>;

    ghost message = { λ it. Replication kinds.Manifest (shown_manifest it) };

    fn tag(&self) -> u8 {
        FrontendMessageFormat::CopyData as u8
    }

    #[inline(always)]
    fn parts(&self) -> Self::Body {
        Then(Byte(ReplicationKind::Manifest as u8), NoBytes)
    }
}

/// Bytes of the archive or of the manifest that began last. Documentation: "Streaming Replication Protocol",
/// BASE_BACKUP, archive or manifest data (B).
#[derive(Clone, Copy, Debug, PartialEq, Eq)]
pub struct BackupData<'a> {
    /// The bytes.
    pub content: &'a [u8],
}

impl<'a> BackupData<'a> {
    /// Reads what follows the letter, which stands before an offset of a message.
    pub(crate) fn read(message: &'a [u8], at: usize) -> Result<BackupData<'a>, ProtocolFault>
        requires within { at ≤ length message.now }
        requires short { length message.now ≤ MAX_BODY }
        ensures { ReadsAfter page.backup_data shown_backup_data message.now at result }
    {
        let Slice(content) = fields_from::<Slice<'a>>(message, at)?;
        Ok(BackupData { content })
    }
}

impl<'a> OutboundMessage for BackupData<'a> {
    type Body = Then<Byte, Slice<'a>>;

    ghost message = { λ it. Replication kinds.BackupData (shown_backup_data it) };

    fn tag(&self) -> u8 {
        FrontendMessageFormat::CopyData as u8
    }

    #[inline(always)]
    fn parts(&self) -> Self::Body {
        Then(Byte(ReplicationKind::BackupData as u8), Slice(self.content))
    }
}

/// How far a backup has come. Documentation: "Streaming Replication Protocol", BASE_BACKUP, progress report (B).
#[derive(Clone, Copy, Debug, PartialEq, Eq)]
pub struct Progress {
    /// The bytes that were processed so far, before they were compressed.
    pub processed: u64,
}

impl Progress {
    /// Reads what follows the letter, which stands before an offset of a message.
    pub(crate) fn read(message: &[u8], at: usize) -> Result<Progress, ProtocolFault>
        requires within { at ≤ length message.now }
        requires short { length message.now ≤ MAX_BODY }
        ensures { ReadsAfter page.progress shown_progress message.now at result }
    {
        let Number64(processed) = fields_from::<Number64>(message, at)?;
        Ok(Progress { processed })
    }
}

impl OutboundMessage for Progress {
    type Body = Then<Byte, Number64>;

    ghost message = { λ it. Replication kinds.Progress (shown_progress it) };

    fn tag(&self) -> u8 {
        FrontendMessageFormat::CopyData as u8
    }

    #[inline(always)]
    fn parts(&self) -> Self::Body {
        Then(
            Byte(ReplicationKind::Progress as u8),
            Number64(self.processed),
        )
    }
}
