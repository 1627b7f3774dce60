//! What a server streams of the changes of its tables, as its plugin pgoutput writes it, of the versions 1 to 3 of the
//! protocol: read from the content of an XLogData, or from a row of `pg_logical_slot_get_binary_changes`. Nothing is
//! read by asking for memory.

mod change;
mod datum;
mod encode;
mod fields;
mod listed;
mod logical_message;
mod logical_stream;
mod old;
mod prepared;
mod relation;
mod relations;
mod stream;
mod table_column;
mod table_columns;
mod transaction;
mod tuple;
mod xlog_message;

pub use change::{Delete, Insert, Truncate, Update};
pub use datum::{Datum, OutboundDatum};
pub use logical_message::LogicalMessage;
pub use logical_stream::LogicalStream;
pub use old::Old;
pub use pg_format::LogicalKind;
pub use prepared::{BeginPrepare, Prepared, RollbackPrepared};
pub use relation::{Relation, TypeName};
pub use relations::Relations;
pub use stream::{StreamAbort, StreamCommit, StreamStart, StreamStop};
pub use table_column::TableColumn;
pub use table_columns::TableColumns;
pub use transaction::{Begin, Commit, Message, Origin};
pub use tuple::Tuple;
pub use xlog_message::XLogMessage;
