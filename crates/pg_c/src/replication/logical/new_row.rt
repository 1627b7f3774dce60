//! A message whose new row follows the number of its table: an Insert, or an Update of which no old row is sent.

ghost use Rattle.std.specs.Prelude.{◌≡◌, ◌≤◌, length, IfSome, IfOk, IfErr, OnOk, OnErr};
ghost use Rattle.pg_format.specs.Received.{max_body};
ghost use Rattle.pg_c.specs.Read.{IfCount, IsBodyFault};
ghost use Rattle.pg_c.specs.Replication.Logical.{BreaksLogical, ReadsChange};
ghost use Rattle.pg_c.specs.Replication.Logical.Lists.{ReadsNewRow};
ghost use Rattle.pg_c.specs.Replication.Logical.NewRow.{table_at, RowAfter, IsNewRow};
ghost use Rattle.pg_c.specs.Replication.Logical.NewRow.{GivesRow, GivesNewFront};

use crate::place::PgmsgList;
use crate::replication::logical::lists::{PgmsgDatum, give_items, is_one_of};
use crate::replication::logical::read::{NOTHING, NUMBER_LENGTH, PgmsgLogical};
use byteorder::{BigEndian, ByteOrder};
use pg_base::ProtocolFault;
use pg_base::io::MAX_BODY;

// The bytes between the number of a transaction and the values: the number of a table, the letter N and a count.
const BEFORE_VALUES: usize = 7;

/// Where the values of the new row of such a message are; nothing where it is none, or is longer than any.
#[inline(always)]
pub(crate) fn new_row_of(content: &[u8], streamed: bool) -> Option<PgmsgList>
    ensures { IfSome result (IsNewRow streamed content.now) }
{
    if streamed {
        new_row_after(content, 5)
    } else {
        new_row_after(content, 1)
    }
}

// The same where the number of the table is at an offset.
#[inline(always)]
fn new_row_after(content: &[u8], table: usize) -> Option<PgmsgList>
    requires { table ≤ 5 }
    ensures { IfSome result (RowAfter content.now table) }
{
    let at = table + BEFORE_VALUES;
    if content.len() < at || content.len() > MAX_BODY {
        return None;
    }
    if !is_one_of(content[0], b'I', b'U') || content[table + 4] != b'N' {
        return None;
    }
    let count = usize::from(BigEndian::read_u16(&content[table + 5..at]));
    Some(PgmsgList { at, count })
}

// Where the number of the table is, after the letter and the number of a transaction that is streamed.
#[inline(always)]
fn table_at(streamed: bool) -> usize
    ensures { result ≡ table_at streamed }
{
    if streamed { 5 } else { 1 }
}

/// Reads a message whose new row has its values there: how many they are.
#[inline(always)]
pub(crate) fn read_new_row(
    content: &[u8],
    streamed: bool,
    list: PgmsgList,
    values: &mut [PgmsgDatum],
    message: &mut PgmsgLogical,
) -> Result<usize, ProtocolFault>
    requires { IsNewRow streamed content.now list }
    ensures value { OnOk result (ReadsChange content.now streamed streamed message.new) }
    ensures row { IfCount result (ReadsNewRow content.now message.new values.old values.new) }
    ensures small { IfOk result (λ count. count ≤ 65535) }
    ensures within { OnOk result (length content.now ≤ max_body) }
    ensures fault { IfErr result (IsBodyFault (BreaksLogical streamed) content.now) }
    ensures front { OnErr result (GivesNewFront streamed content.now values.old values.new) }
    ensures kept { OnErr result (message.new ≡ message.old) }
{
    let end = give_items::<PgmsgDatum>(content, list, values)?;
    if end < content.len() {
        return Err(ProtocolFault::TrailingBytes { at: end });
    }
    *message = given_row(content, streamed, list);
    Ok(list.count)
}

// The message as it is given.
#[inline(always)]
fn given_row(content: &[u8], streamed: bool, values: PgmsgList) -> PgmsgLogical
    requires { IsNewRow streamed content.now values }
    ensures { GivesRow streamed content.now values result }
{
    let table = table_at(streamed);
    PgmsgLogical {
        letter: content[0],
        has_transaction: streamed,
        transaction: if streamed {
            BigEndian::read_u32(&content[1..5])
        } else {
            0
        },
        relation: BigEndian::read_u32(&content[table..table + NUMBER_LENGTH]),
        new_row: values,
        ..NOTHING
    }
}
