//! The messages of logical replication, read where they are.

ghost use Rattle.std.specs.Prelude.{◌≡◌, ◌≤◌, ◌<ℤ◌, ◌≤ℤ◌, Bool, pos, length, Ok};
ghost use Rattle.std.specs.Prelude.{IfErr, IfOk, OnErr, OnOk};
ghost use Rattle.pg_format.specs.Received.{max_body};
ghost use Rattle.pg_replication.specs.Logical.{ReadsLogical, streamed_after};
ghost use Rattle.pg_c.specs.Replication.Logical.{begun, IsGivenAs, ReadsChange};
ghost use Rattle.pg_c.specs.Read.{IfCount, IfRead, IsBodyFault, LeavesRest};
ghost use Rattle.pg_c.specs.Replication.Logical.{BreaksLogical, ReadsLogicalContent, RefusesLogical};
ghost use Rattle.pg_c.specs.Replication.Logical.Lists.{ReadsNewRow};
ghost use Rattle.pg_c.specs.Replication.Logical.NewRow.{GivesNewFront};
ghost use Rattle.pg_c.specs.Replication.Logical.Places.{fields_after};

use crate::place::{NOWHERE, PgmsgList, PgmsgSpan};
use crate::refusal::{PgmsgFault, report};
use crate::replication::logical::lists::{PgmsgDatum, read_list};
use crate::replication::logical::new_row::{new_row_of, read_new_row};
use crate::replication::logical::{change, transaction};
use pg_base::ProtocolFault;
use pg_base::io::MAX_BODY;
use pg_replication::logical::{LogicalMessage, LogicalStream};
use std::alloc::Global;

// The bytes before the fields: the letter.
pub(crate) const LETTER_LENGTH: usize = 1;

// The bytes of the number of a transaction or of a table.
pub(crate) const NUMBER_LENGTH: usize = 4;

// The place of a list that a message hasn't.
pub(crate) const NO_LIST: PgmsgList = PgmsgList { at: 0, count: 0 };

pub(crate) const NOTHING: PgmsgLogical = PgmsgLogical {
    letter: 0,
    has_transaction: false,
    transaction: 0,
    subtransaction: 0,
    flags: 0,
    is_first: false,
    lsn: 0,
    end_lsn: 0,
    rollback_end_lsn: 0,
    clock: 0,
    rollback_clock: 0,
    relation: 0,
    type_id: 0,
    replica_identity: 0,
    schema: NOWHERE,
    name: NOWHERE,
    content: NOWHERE,
    columns: NO_LIST,
    relations: NO_LIST,
    old_letter: 0,
    old_row: NO_LIST,
    new_row: NO_LIST,
};

/// What a server streams of the changes of its tables, by the letter that it begins with (PostgreSQL's documentation,
/// "Logical Replication Message Formats"). `B`, Begin: the `transaction`, whose commit is at `lsn`. `M`, Message: its
/// position `lsn`, its prefix in `name`, its `content`, and `flags` of 1 where it is a part of its transaction. `C`,
/// Commit: its position `lsn`, and the transaction's end `end_lsn`. `O`, Origin: the `name` of the server that the
/// transaction came from, and its commit's `lsn` there. `R`, Relation: a table's number `relation`, its `schema`, which
/// is empty for pg_catalog, its `name`, the letter of its `replica_identity`, and its `columns`, for
/// `pgmsg_read_table_columns`. `Y`, Type: a type's number `type_id`, its `schema` and its `name`. `I`, Insert: the table
/// `relation` and the `new_row`. `U`, Update: the same, and an `old_letter` of `K` where `old_row` has the old key, `O`
/// where it has the old row, and 0 where there is none. `D`, Delete: the table and such an `old_row`. Rows are for
/// `pgmsg_read_tuple`. `T`, Truncate: the numbers of the tables `relations`, for `pgmsg_read_types`, and in `flags` 1 for
/// CASCADE and 2 for RESTART IDENTITY. `S`, Stream Start: the `transaction` of the messages up to the Stream Stop, and
/// whether they are the first of it. `E`: Stream Stop. `c`, Stream Commit: the `transaction`, and what a Commit has.
/// `A`, Stream Abort: the `transaction`, and the `subtransaction` that is undone, which is the same where all is. `b`,
/// Begin Prepare, `P`, Prepare, `K`, Commit Prepared, and `p`, Stream Prepare: the `transaction`, its GID in `name`, the
/// position `lsn` of the prepare or the commit, and the `end_lsn` of the transaction or its commit. `r`, Rollback
/// Prepared: the `transaction`, its GID in `name`, its `end_lsn`, and the `rollback_end_lsn` and `rollback_clock` of its
/// rollback. `clock` is when a transaction was committed or prepared, in microseconds since the beginning of the year
/// 2000; positions count the bytes of the log. `has_transaction` says that there is a `transaction`: between a Stream
/// Start and a Stream Stop `M`, `R`, `Y`, `I`, `U`, `D` and `T` have one too. What a message hasn't is 0, false or empty.
#[repr(C)]
#[derive(Clone, Copy)]
pub struct PgmsgLogical {
    pub letter: u8,
    pub has_transaction: bool,
    pub transaction: u32,
    pub subtransaction: u32,
    pub flags: u8,
    pub is_first: bool,
    pub lsn: u64,
    pub end_lsn: u64,
    pub rollback_end_lsn: u64,
    pub clock: i64,
    pub rollback_clock: i64,
    pub relation: u32,
    pub type_id: u32,
    pub replica_identity: u8,
    pub schema: PgmsgSpan,
    pub name: PgmsgSpan,
    pub content: PgmsgSpan,
    pub columns: PgmsgList,
    pub relations: PgmsgList,
    pub old_letter: u8,
    pub old_row: PgmsgList,
    pub new_row: PgmsgList,
}

/// What the content of an XLogData of a logical slot says, or a row of `pg_logical_slot_get_binary_changes`, in the
/// versions 1 to 3 of the protocol: how many values its `new_row` has, 0 where it has none. As many as there is room for
/// are written, and `pgmsg_read_tuple` gives all. `streamed` is the caller's, false before the first message of a slot,
/// and passed with each in order: a Stream Start sets it, and a Stream Stop clears it. Places are in `content`. A message
/// is refused with PGMSG_UNKNOWN_MESSAGE_TYPE where no kind has its letter, with PGMSG_UNKNOWN_LETTER where no row
/// or value has one, and with PGMSG_TRAILING_BYTES where bytes follow its last part.
#[unsafe(no_mangle)]
pub extern "C" fn pgmsg_read_logical(
    alloc: Global,
    content: &[u8],
    streamed: &mut bool,
    values: &mut [PgmsgDatum],
    message: &mut PgmsgLogical,
    fault: &mut PgmsgFault,
) -> isize
    ensures read { pos 0 ≤ℤ result → ReadsChange content.now streamed.old streamed.new message.new }
    ensures row { IfRead result (ReadsNewRow content.now message.new values.old values.new) }
    ensures fault { RefusesLogical streamed.old content.now fault.old fault.new result }
    ensures front { result <ℤ pos 0 → GivesNewFront streamed.old content.now values.old values.new }
    ensures left { LeavesRest content.now fault.old fault.new message.old message.new result }
    ensures unchanged { result <ℤ pos 0 → streamed.new ≡ streamed.old }
{
    let Some(list) = new_row_of(content, *streamed) else {
        return match read_other(content, streamed, values, message) {
            Ok(count) => count as isize,
            Err(why) => report(alloc, why.into(), fault) as isize,
        };
    };
    match read_new_row(content, *streamed, list, values, message) {
        Ok(count) => count as isize,
        Err(why) => report(alloc, why.into(), fault) as isize,
    }
}

// A message of any kind: how many values its new row has. What is passed is as it was where it is refused.
#[inline(never)]
fn read_other(
    content: &[u8],
    streamed: &mut bool,
    values: &mut [PgmsgDatum],
    message: &mut PgmsgLogical,
) -> Result<usize, ProtocolFault>
    ensures value { OnOk result (ReadsChange content.now streamed.old streamed.new message.new) }
    ensures row { IfCount result (ReadsNewRow content.now message.new values.old values.new) }
    ensures small { IfOk result (λ count. count ≤ length content.now) }
    ensures within { OnOk result (length content.now ≤ max_body) }
    ensures fault { IfErr result (IsBodyFault (BreaksLogical streamed.old) content.now) }
    ensures front { OnErr result (values.new ≡ values.old) }
    ensures kept { OnErr result (message.new ≡ message.old) }
    ensures unchanged { OnErr result (streamed.new ≡ streamed.old) }
{
    let mut stream = LogicalStream {
        streamed: *streamed,
    };
    let read = message_of(content, &mut stream)?;
    let change = given(content, &read);
    // A row of a message that was read is there.
    read_list(content, change.new_row, values)?;
    *streamed = stream.streamed;
    *message = change;
    Ok(change.new_row.count)
}

// The message, and whether the next is streamed.
fn message_of<'a>(
    content: &'a [u8],
    stream: &mut LogicalStream,
) -> Result<LogicalMessage<'a>, ProtocolFault>
    ensures read { ReadsLogicalContent stream.old.streamed content.now result }
    ensures after { stream.new.streamed ≡ streamed_after stream.old.streamed result }
{
    stream.read(content)
}

// The message as it is given.
fn given(content: &[u8], message: &LogicalMessage<'_>) -> PgmsgLogical
    requires short { length content.now ≤ MAX_BODY }
    requires read { (streamed : Bool) × ReadsLogical streamed content.now (Ok message.now) }
    ensures { IsGivenAs content.now message.now result }
{
    match message {
        LogicalMessage::Begin(begin) => transaction::given_begin(begin),
        LogicalMessage::Message(message) => transaction::given_message(message),
        LogicalMessage::Commit(commit) => transaction::given_commit(commit),
        LogicalMessage::Origin(origin) => transaction::given_origin(origin),
        LogicalMessage::Relation(relation) => change::given_relation(relation),
        LogicalMessage::TypeName(name) => change::given_type_name(name),
        LogicalMessage::Insert(insert) => change::given_insert(insert),
        LogicalMessage::Update(update) => change::given_update(content, update),
        LogicalMessage::Delete(delete) => change::given_delete(delete),
        LogicalMessage::Truncate(truncate) => change::given_truncate(truncate),
        LogicalMessage::StreamStart(start) => transaction::given_stream_start(start),
        LogicalMessage::StreamStop(_) => begun(b'E', None),
        LogicalMessage::StreamCommit(commit) => transaction::given_stream_commit(commit),
        LogicalMessage::StreamAbort(abort) => transaction::given_stream_abort(abort),
        LogicalMessage::BeginPrepare(prepare) => transaction::given_begin_prepare(prepare),
        LogicalMessage::Prepare(prepared) => transaction::given_prepared(b'P', prepared),
        LogicalMessage::CommitPrepared(prepared) => transaction::given_prepared(b'K', prepared),
        LogicalMessage::RollbackPrepared(undone) => transaction::given_rollback_prepared(undone),
        LogicalMessage::StreamPrepare(prepared) => transaction::given_prepared(b'p', prepared),
    }
}

/// A message of a letter, and of a transaction where it names one, without other fields.
pub(crate) fn begun(letter: u8, transaction: Option<u32>) -> PgmsgLogical
    ensures { result ≡ begun letter transaction }
{
    match transaction {
        Some(number) => PgmsgLogical {
            letter,
            has_transaction: true,
            transaction: number,
            ..NOTHING
        },
        None => PgmsgLogical { letter, ..NOTHING },
    }
}

/// Where the fields begin, after the number of a transaction that is streamed.
pub(crate) fn fields_after(transaction: Option<u32>) -> usize
    ensures { result ≡ fields_after transaction }
{
    if transaction.is_some() {
        LETTER_LENGTH + NUMBER_LENGTH
    } else {
        LETTER_LENGTH
    }
}
