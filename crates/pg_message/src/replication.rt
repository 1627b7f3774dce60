//! What the data of a CopyData says while a server streams its log or a backup: read by
//! [`ReplicationMessage::read`], and written as a whole CopyData by [`encode`](crate::backend::encode) or
//! [`write`](crate::backend::write), by a client too.

pub use pg_format::{ReplicationKind, field};
pub use pg_replication::{
    BackupData, HotStandbyFeedback, Manifest, NewArchive, PrimaryKeepalive, Progress,
    ReplicationMessage, StandbyStatusUpdate, XLogData, logical,
};
