//! The kinds of messages of logical replication.

ghost use Rattle.std.specs.Prelude.{◌≡◌, IfSome, IfNone};
ghost use Rattle.pg_format.specs.Logical.{logical_letter, IsNoLogicalLetter};

/// What a server streams of the changes of its tables. As a number it is the letter that the message begins with.
/// Documentation: "Logical Replication Message Formats".
#[derive(Clone, Copy, Debug, PartialEq, Eq)]
pub enum LogicalKind {
    /// A transaction begins.
    Begin = b'B' as isize,
    /// A message that a program wrote to the log.
    Message = b'M' as isize,
    /// The transaction is committed.
    Commit = b'C' as isize,
    /// The transaction came from another server.
    Origin = b'O' as isize,
    /// A table and its columns.
    Relation = b'R' as isize,
    /// A type of a column.
    TypeName = b'Y' as isize,
    /// A new row.
    Insert = b'I' as isize,
    /// A row that is changed.
    Update = b'U' as isize,
    /// A row that is deleted.
    Delete = b'D' as isize,
    /// Tables that are emptied.
    Truncate = b'T' as isize,
    /// Messages of a transaction that is open follow.
    StreamStart = b'S' as isize,
    /// The end of these messages.
    StreamStop = b'E' as isize,
    /// A streamed transaction is committed.
    StreamCommit = b'c' as isize,
    /// A streamed transaction is undone, or a part of it.
    StreamAbort = b'A' as isize,
    /// A transaction begins that is prepared.
    BeginPrepare = b'b' as isize,
    /// It is prepared.
    Prepare = b'P' as isize,
    /// It is committed.
    CommitPrepared = b'K' as isize,
    /// It is undone.
    RollbackPrepared = b'r' as isize,
    /// A streamed transaction is prepared.
    StreamPrepare = b'p' as isize,
}

impl LogicalKind {
    /// The kind of a letter, or `None` where no kind has it.
    pub fn of_letter(letter: u8) -> Option<LogicalKind>
        ensures known { IfSome result (λ kind. logical_letter kind ≡ letter) }
        ensures unknown { IfNone result (IsNoLogicalLetter letter) }
    {
        Some(match letter {
            b'B' => LogicalKind::Begin,
            b'M' => LogicalKind::Message,
            b'C' => LogicalKind::Commit,
            b'O' => LogicalKind::Origin,
            b'R' => LogicalKind::Relation,
            b'Y' => LogicalKind::TypeName,
            b'I' => LogicalKind::Insert,
            b'U' => LogicalKind::Update,
            b'D' => LogicalKind::Delete,
            b'T' => LogicalKind::Truncate,
            b'S' => LogicalKind::StreamStart,
            b'E' => LogicalKind::StreamStop,
            b'c' => LogicalKind::StreamCommit,
            b'A' => LogicalKind::StreamAbort,
            b'b' => LogicalKind::BeginPrepare,
            b'P' => LogicalKind::Prepare,
            b'K' => LogicalKind::CommitPrepared,
            b'r' => LogicalKind::RollbackPrepared,
            b'p' => LogicalKind::StreamPrepare,
            _ => return None,
        })
    }
}
