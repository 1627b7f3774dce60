//! What the data of a CopyData says while a server streams its log or a backup: read by either side, and written as
//! a whole CopyData. Nothing is read by asking for memory.
#![tactic(auto)]

mod backup;
pub mod logical;
mod replication_message;
mod streaming;

pub use backup::{BackupData, Manifest, NewArchive, Progress};
pub use pg_format::ReplicationKind;
pub use replication_message::ReplicationMessage;
pub use streaming::{HotStandbyFeedback, PrimaryKeepalive, StandbyStatusUpdate, XLogData};
