//! How a message of logical replication is written.

ghost use Rattle.std.specs.Prelude.{◌≡◌, ◌≤◌, ◌++◌, length, None, OnOk, IfOk};
ghost use Rattle.pg_base.specs.Cutting.{max_length};
ghost use Rattle.pg_base.specs.Part.{saturated};
ghost use Rattle.pg_base.specs.Sink.{HasRoom};
ghost use Rattle.pg_base.specs.Tagged.{checked_len};
ghost use Rattle.pg_format.specs.Logical.{logical_letter};
ghost use Rattle.pg_replication.specs.Logical.Encode.{says, fields_part, content_part, content, content_fault, EncodesContent, IsContentWritten, IsReadBack};

use crate::logical::LogicalMessage;
use crate::logical::fields::OutboundFields;
use pg_base::io::part::Part;
use pg_base::io::{Encodable, Sink, checked_len, write_text};
use pg_base::{Error, ProtocolFault};
use pg_format::LogicalKind;

// What is done with the fields of a message, whatever its kind is.
macro_rules! with_fields {
    ($message:expr, $it:ident => $done:expr) => {
        match $message {
            LogicalMessage::Begin($it) => $done,
            LogicalMessage::Message($it) => $done,
            LogicalMessage::Commit($it) => $done,
            LogicalMessage::Origin($it) => $done,
            LogicalMessage::Relation($it) => $done,
            LogicalMessage::TypeName($it) => $done,
            LogicalMessage::Insert($it) => $done,
            LogicalMessage::Update($it) => $done,
            LogicalMessage::Delete($it) => $done,
            LogicalMessage::Truncate($it) => $done,
            LogicalMessage::StreamStart($it) => $done,
            LogicalMessage::StreamStop($it) => $done,
            LogicalMessage::StreamCommit($it) => $done,
            LogicalMessage::StreamAbort($it) => $done,
            LogicalMessage::BeginPrepare($it) => $done,
            LogicalMessage::Prepare($it) => $done,
            LogicalMessage::CommitPrepared($it) => $done,
            LogicalMessage::RollbackPrepared($it) => $done,
            LogicalMessage::StreamPrepare($it) => $done,
        }
    };
}

impl LogicalMessage<'_> {
    /// Its kind.
    pub fn kind(&self) -> LogicalKind
        ensures { result ≡ (says self.now).0 }
    {
        match self {
            LogicalMessage::Begin(_) => LogicalKind::Begin,
            LogicalMessage::Message(_) => LogicalKind::Message,
            LogicalMessage::Commit(_) => LogicalKind::Commit,
            LogicalMessage::Origin(_) => LogicalKind::Origin,
            LogicalMessage::Relation(_) => LogicalKind::Relation,
            LogicalMessage::TypeName(_) => LogicalKind::TypeName,
            LogicalMessage::Insert(_) => LogicalKind::Insert,
            LogicalMessage::Update(_) => LogicalKind::Update,
            LogicalMessage::Delete(_) => LogicalKind::Delete,
            LogicalMessage::Truncate(_) => LogicalKind::Truncate,
            LogicalMessage::StreamStart(_) => LogicalKind::StreamStart,
            LogicalMessage::StreamStop(_) => LogicalKind::StreamStop,
            LogicalMessage::StreamCommit(_) => LogicalKind::StreamCommit,
            LogicalMessage::StreamAbort(_) => LogicalKind::StreamAbort,
            LogicalMessage::BeginPrepare(_) => LogicalKind::BeginPrepare,
            LogicalMessage::Prepare(_) => LogicalKind::Prepare,
            LogicalMessage::CommitPrepared(_) => LogicalKind::CommitPrepared,
            LogicalMessage::RollbackPrepared(_) => LogicalKind::RollbackPrepared,
            LogicalMessage::StreamPrepare(_) => LogicalKind::StreamPrepare,
        }
    }

    /// The exact length of the message in bytes, or its first fault, in the order of its fields: `TooMany` for a row or
    /// columns of more than 65535, `TextHoldsNul` for a text that holds a NUL, and last `MessageTooLong`, for a message
    /// of more than 2147483643 bytes, which no CopyData can hold.
    pub fn checked_len(&self) -> Result<usize, ProtocolFault>
        ensures { result ≡ checked_len (content_fault self.now) (length (content self.now)) }
    {
        checked_len(self)
    }

    /// Adds the message to the buffer: its letter and its fields, which are the content of an XLogData. The number of
    /// the transaction is there where the message has one.
    ///
    /// Every refusal leaves the bytes of the buffer as they were: a fault, exactly where there is one and before memory
    /// is asked for, or `OutOfMemory`, only where the spare room doesn't hold the message.
    pub fn encode(&self, buf: &mut Vec<u8>) -> Result<(), Error>
        ensures encodes { EncodesContent self.now buf.old buf.new result }
        ensures read { OnOk result (IsReadBack self.now) }
    {
        let len = checked_len(self)?;
        buf.reserve(len)?;
        Part::put(self, buf);
        Ok(())
    }

    /// Writes the message at the front of `out` where it is that long, and gives its length: a greater one than `out` has
    /// says that nothing was written. A fault leaves `out` as it was.
    pub fn write(&self, out: &mut [u8]) -> Result<usize, ProtocolFault>
        ensures written { IsContentWritten self.now out.old out.new result }
        ensures read { IfOk result (λ len. len ≤ length out.old → IsReadBack self.now) }
        ensures small { IfOk result (λ len. len ≤ max_length) }
    {
        let len = checked_len(self)?;
        write_text(self, len, out);
        Ok(len)
    }

    // The letter.
    fn letter(&self) -> u8
        ensures { result ≡ logical_letter (says self.now).0 }
    {
        self.kind() as u8
    }

    // The length of what follows the letter; sums saturate.
    fn fields_len(&self) -> usize
        ensures { result ≡ saturated (length (fields_part self.now).text) }
    {
        with_fields!(self, it => it.len())
    }

    // Adds what follows the letter, in room that is there.
    fn put_fields<S: Sink>(&self, sink: &mut S)
        requires counted { (fields_part self.now).fault ≡ None }
        requires small { length (fields_part self.now).text ≤ max_length }
        requires room { HasRoom (S.capacity sink.old) (S.written sink.old) (fields_part self.now).text }
        ensures written { S.written sink.new ≡ S.written sink.old ++ (fields_part self.now).text }
        ensures capacity { S.capacity sink.old ≤ S.capacity sink.new }
        ensures loan { S.loan sink.new ≡ S.loan sink.old }
        ensures range { (fields_part self.now).IsInRange }
    {
        with_fields!(self, it => it.put(sink))
    }
}

/// The letter and the fields.
impl Part for LogicalMessage<'_> {
    ghost part = { content_part };

    fn len(&self) -> usize {
        self.fields_len().saturating_add(1)
    }

    fn fault(&self) -> Option<ProtocolFault> {
        with_fields!(self, it => it.fault())
    }

    fn put<S: Sink>(&self, sink: &mut S) {
        sink.put_u8(self.letter());
        self.put_fields(sink);
    }
}

impl Encodable for LogicalMessage<'_> {
    ghost text = { content };

    ghost can = { λ it. content_fault it ≡ None };

    ghost IsInRange = { λ it. (content_part it).IsInRange };

    fn put<S: Sink>(&self, sink: &mut S) {
        Part::put(self, sink);
    }
}
