//! The lists of a message of logical replication: the values of a row, and the columns of a table.

ghost use Rattle.std.specs.Prelude.{◌≡◌, ◌+◌, ◌≤◌, ◌<ℤ◌, ℕ, pos, List, length, get_or, Option};
ghost use Rattle.std.specs.Prelude.{◌≢◌, ◌⊎◌, true, false, OnOk, OnErr, IfErr, IfOk, IfSome, IfNone};
ghost use Rattle.pg_format.specs.Format.Lists.{times};
ghost use Rattle.pg_format.specs.Format.{Format};
ghost use Rattle.pg_format.specs.Format.Places.{BreaksAt};
ghost use Rattle.pg_format.specs.Logical.{datum, column};
ghost use Rattle.pg_format.specs.Received.{max_body};
ghost use Rattle.pg_replication.specs.Logical.TableColumns.{shown_column};
ghost use Rattle.pg_replication.specs.Logical.Tuple.{shown_datum};
ghost use Rattle.pg_c.specs.Place.{nowhere, span_of};
ghost use Rattle.pg_c.specs.Read.{IfRead, IsBodyFault, LeavesFault};
ghost use Rattle.pg_c.specs.Replication.Logical.Lists.{datum_in, column_in, IsPlaceOf, PlacesAt, Finds};
ghost use Rattle.pg_c.specs.Replication.Logical.Lists.{GivesUpTo, GivesAll, GivesSomeOf};
ghost use Rattle.pg_c.specs.Replication.Logical.Lists.{AllAfter, FewAfter, FaultAfter};
ghost use Rattle.pg_c.specs.Replication.Logical.Lists.{CountsList, GivesFrontOf, BreaksList};
ghost use Rattle.pg_c.specs.Replication.Logical.Lists.{LacksList, RefusesList, IsNotThere};
ghost use Rattle.pg_c.specs.Replication.Logical.Lists.{ReadsDatums, ReadsTableColumns};
ghost use Rattle.pg_c.specs.Replication.Logical.Lists.{GivesDatums, GivesTableColumns};

use crate::place::{NOWHERE, PgmsgList, PgmsgSpan, span};
use crate::read::check_body;
use crate::refusal::{PgmsgFault, report};
use byteorder::{BigEndian, ByteOrder};
use pg_base::ProtocolFault;
use pg_base::io::{MAX_BODY, bytes_at};
use pg_format::items::Item;
use pg_replication::logical::{Datum, TableColumn};
use std::alloc::Global;

// The bytes before a value: its letter and its length.
const BEFORE_VALUE: usize = 5;

/// The value of a column in a row that changes. `kind` is `n` for NULL, and in a key for a column that isn't part of
/// it, `u` for a large value that wasn't changed and isn't sent, `t` for a `value` as text, and `b` for one in the
/// binary format of its type. A `value` of the first two is empty.
#[repr(C)]
#[derive(Clone, Copy)]
pub struct PgmsgDatum {
    pub kind: u8,
    pub value: PgmsgSpan,
}

/// A column of a table whose rows change. `flags` are 1 where it is a part of the key, else 0.
#[repr(C)]
#[derive(Clone, Copy)]
pub struct PgmsgTableColumn {
    pub flags: u8,
    pub name: PgmsgSpan,
    pub type_id: u32,
    pub type_modifier: i32,
}

/// The values of a row that `pgmsg_read_logical` gave of this content: how many there are. As many as there is room for
/// are written; the rest are read too. A row that it gave is not refused.
#[unsafe(no_mangle)]
pub extern "C" fn pgmsg_read_tuple(
    alloc: Global,
    content: &[u8],
    list: PgmsgList,
    values: &mut [PgmsgDatum],
    fault: &mut PgmsgFault,
) -> isize
    ensures values { IfRead result (ReadsDatums content.now list values.old values.new) }
    ensures there { result <ℤ pos 0 → IsNotThere datum list content.now }
    ensures fault { RefusesList datum list content.now fault.old fault.new result }
    ensures front { result <ℤ pos 0 → GivesDatums content.now list values.old values.new }
    ensures left { LeavesFault content.now fault.old fault.new result }
{
    match read_list::<PgmsgDatum>(content, list, values) {
        Ok(()) => list.count as isize,
        Err(why) => report(alloc, why.into(), fault) as isize,
    }
}

/// The columns of a table that `pgmsg_read_logical` gave of this content: how many there are. As many as there is room
/// for are written; the rest are read too. A list that it gave is not refused.
#[unsafe(no_mangle)]
pub extern "C" fn pgmsg_read_table_columns(
    alloc: Global,
    content: &[u8],
    list: PgmsgList,
    columns: &mut [PgmsgTableColumn],
    fault: &mut PgmsgFault,
) -> isize
    ensures columns { IfRead result (ReadsTableColumns content.now list columns.old columns.new) }
    ensures there { result <ℤ pos 0 → IsNotThere column list content.now }
    ensures fault { RefusesList column list content.now fault.old fault.new result }
    ensures front { result <ℤ pos 0 → GivesTableColumns content.now list columns.old columns.new }
    ensures left { LeavesFault content.now fault.old fault.new result }
{
    match read_list::<PgmsgTableColumn>(content, list, columns) {
        Ok(()) => list.count as isize,
        Err(why) => report(alloc, why.into(), fault) as isize,
    }
}

/// An item of a list, as its place.
pub(crate) trait Place: Copy {
    ghost Shown: { Type 0 };

    /// What its bytes mean.
    ghost format: { Format Shown };

    /// The item that the place says of some bytes.
    ghost item_in: { List ℕ → Self → Option Shown };

    /// The place of the item at an offset, and the offset after it.
    fn place_at(content: &[u8], at: usize) -> Result<(Self, usize), ProtocolFault>
        requires within { at ≤ length content.now }
        requires short { length content.now ≤ MAX_BODY }
        ensures place { PlacesAt format item_in content.now at result }
        ensures broken { IfErr result (BreaksAt format content.now at) };

    /// Gives the first items of a list, as many as are found quickly: how many they are, and the offset after them.
    fn give_front(content: &[u8], list: PgmsgList, to: &mut [Self]) -> (usize, usize)
        requires within { list.at ≤ length content.now }
        requires short { length content.now ≤ MAX_BODY }
        ensures few { result.0 ≤ list.count }
        ensures front { GivesUpTo format item_in content.now list result.1 result.0 to.old to.new };
}

/// Gives the items of a list, as far as there is room for them.
pub(crate) fn read_list<P: Place>(
    content: &[u8],
    list: PgmsgList,
    to: &mut [P],
) -> Result<(), ProtocolFault>
    ensures small { OnOk result (list.count ≤ length content.now) }
    ensures within { OnOk result (length content.now ≤ max_body) }
    ensures items { OnOk result (CountsList P.format P.item_in content.now list to.old to.new) }
    ensures fault { IfErr result (IsBodyFault (BreaksList P.format list) content.now) }
    ensures front { OnErr result (GivesFrontOf P.format P.item_in content.now list to.old to.new) }
{
    check_list(content, list)?;
    give_items(content, list, to)?;
    Ok(())
}

/// Gives so many items from an offset on, as far as there is room for them: the offset after them.
#[inline(always)]
pub(crate) fn give_items<P: Place>(
    content: &[u8],
    list: PgmsgList,
    to: &mut [P],
) -> Result<usize, ProtocolFault>
    requires within { list.at ≤ length content.now }
    requires short { length content.now ≤ MAX_BODY }
    ensures items { IfOk result (GivesAll P.format P.item_in content.now list to.old to.new) }
    ensures fault { IfErr result (BreaksAt (times list.count P.format) content.now list.at) }
    ensures front { OnErr result (GivesSomeOf P.format P.item_in content.now list to.old to.new) }
{
    let (index, at) = P::give_front(content, list, to);
    if index < list.count {
        return give_rest(content, list, at, index, to);
    }
    Ok(at)
}

// Gives the items from one on: those for which there is no room, and those up to the one that is broken.
#[cold]
#[inline(never)]
fn give_rest<P: Place>(
    bytes: &[u8],
    list: PgmsgList,
    at: usize,
    from: usize,
    to: &mut [P],
) -> Result<usize, ProtocolFault>
    requires start { at ≤ length bytes.now }
    requires short { length bytes.now ≤ MAX_BODY }
    requires few { from ≤ list.count }
    ensures items { IfOk result (AllAfter P.format P.item_in bytes.now list at from to.old to.new) }
    ensures fault { IfErr result (FaultAfter P.format P.item_in bytes.now list at from to.old) }
    ensures some { OnErr result (FewAfter P.format P.item_in bytes.now list at from to.old to.new) }
{
    let mut start = at;
    for index in from..list.count {
        let (place, end) = P::place_at(bytes, start)?;
        if index < to.len() {
            to[index] = place;
        }
        start = end;
    }
    Ok(start)
}

// Whether the content can have so many items there, each of which has a byte at least.
fn check_list(content: &[u8], list: PgmsgList) -> Result<(), ProtocolFault>
    ensures fits { OnOk result (list.at + list.count ≤ length content.now) }
    ensures within { OnOk result (length content.now ≤ max_body) }
    ensures fault { IfErr result (IsBodyFault (LacksList list) content.now) }
{
    check_body(content)?;
    if list.at > content.len() {
        return Err(ProtocolFault::Short {
            at: list.at,
            needed: list.count,
            got: 0,
        });
    }
    bytes_at(content, list.at, list.count)?;
    Ok(())
}

impl Place for PgmsgDatum {
    ghost use Rattle.pg_format.specs.Logical.{Datum};

    ghost Shown = { Datum };

    ghost format = { datum };

    ghost item_in = { datum_in };

    fn place_at(content: &[u8], at: usize) -> Result<(PgmsgDatum, usize), ProtocolFault> {
        let (value, end) = Datum::item_at(content, at)?;
        Ok((place_of_datum(at, &value), end))
    }

    #[inline(always)]
    fn give_front(content: &[u8], list: PgmsgList, to: &mut [PgmsgDatum]) -> (usize, usize) {
        let room = list.count.min(to.len());
        let mut at = list.at;
        for index in 0..room {
            let Some(end) = put_datum(content, at, &mut to[index]) else {
                return (index, at);
            };
            at = end;
        }
        (room, at)
    }
}

// Gives the place of the value at an offset: the offset after it; nothing where the value is broken. A place is written part
// by part. As a whole it would be copied with the bytes between its parts, which are on their way in memory then: that takes
// longer than to find the place.
#[inline(always)]
fn put_datum(content: &[u8], at: usize, to: &mut PgmsgDatum) -> Option<usize>
    requires within { at ≤ length content.now }
    requires short { length content.now ≤ MAX_BODY }
    ensures found { IfSome result (λ end. Finds datum datum_in content.now at to.new end) }
    ensures kept { IfNone result (to.new ≡ to.old) }
{
    if at + BEFORE_VALUE <= content.len() {
        let kind = content[at];
        if is_one_of(kind, b't', b'b') {
            return put_with_value(content, at, to);
        }
        if kind == b'n' {
            return Some(put_without_value(kind, at, to));
        }
    }
    put_null_or_unchanged(content, at, to)
}

// The same at the end of a message, or of a value that wasn't changed. A test of all four letters at once would be a jump by a
// table.
#[inline(always)]
fn put_null_or_unchanged(content: &[u8], at: usize, to: &mut PgmsgDatum) -> Option<usize>
    requires within { at ≤ length content.now }
    requires short { length content.now ≤ MAX_BODY }
    ensures found { IfSome result (λ end. Finds datum datum_in content.now at to.new end) }
    ensures kept { IfNone result (to.new ≡ to.old) }
{
    if at < content.len() && is_one_of(content[at], b'n', b'u') {
        return Some(put_without_value(content[at], at, to));
    }
    None
}

// Gives the place of a value that is sent: the offset after it; nothing where the message ends before.
#[inline(always)]
fn put_with_value(content: &[u8], at: usize, to: &mut PgmsgDatum) -> Option<usize>
    requires within { at + 5 ≤ length content.now }
    requires short { length content.now ≤ MAX_BODY }
    requires kind { (get_or content.now at 0 ≡ 116) ⊎ (get_or content.now at 0 ≡ 98) }
    ensures found { IfSome result (λ end. Finds datum datum_in content.now at to.new end) }
    ensures kept { IfNone result (to.new ≡ to.old) }
{
    let start = at + BEFORE_VALUE;
    let len = BigEndian::read_u32(&content[at + 1..start]) as usize;
    let end = start + len;
    if end > content.len() {
        return None;
    }
    to.kind = content[at];
    to.value = PgmsgSpan { at: start, len };
    Some(end)
}

// Whether a letter is one of two.
#[inline(always)]
pub(crate) fn is_one_of(letter: u8, one: u8, other: u8) -> bool
    ensures yes { result ≡ true → (letter ≡ one) ⊎ (letter ≡ other) }
    ensures no { result ≡ false → (letter ≢ one) × (letter ≢ other) }
{
    letter == one || letter == other
}

// Gives the place of a value that isn't sent, whose letter stands at an offset: the offset after it.
#[inline(always)]
fn put_without_value(kind: u8, at: usize, to: &mut PgmsgDatum) -> usize
    requires { at ≤ MAX_BODY }
    ensures place { to.new ≡ record { kind = kind; value = nowhere } }
    ensures after { result ≡ at + 1 }
{
    to.kind = kind;
    to.value = NOWHERE;
    at + 1
}

// The place of the value that begins at an offset.
fn place_of_datum(at: usize, value: &Datum<'_>) -> PgmsgDatum
    requires { at ≤ MAX_BODY }
    ensures { IsPlaceOf datum datum_in at (shown_datum value.now) result }
{
    match value {
        Datum::Null => without_value(b'n'),
        Datum::Unchanged => without_value(b'u'),
        Datum::Text(text) => with_value(b't', at, text),
        Datum::Binary(bytes) => with_value(b'b', at, bytes),
    }
}

// A value that isn't sent.
fn without_value(kind: u8) -> PgmsgDatum
    ensures { result ≡ record { kind = kind; value = nowhere } }
{
    PgmsgDatum {
        kind,
        value: NOWHERE,
    }
}

// A value after its letter and its length.
fn with_value(kind: u8, at: usize, value: &[u8]) -> PgmsgDatum
    requires { at ≤ MAX_BODY }
    ensures { result ≡ record { kind = kind; value = span_of (at + 5) value.now } }
{
    PgmsgDatum {
        kind,
        value: span(at + BEFORE_VALUE, value),
    }
}

impl Place for PgmsgTableColumn {
    ghost use Rattle.pg_format.specs.Logical as page;

    ghost Shown = { page.Column };

    ghost format = { column };

    ghost item_in = { column_in };

    fn place_at(content: &[u8], at: usize) -> Result<(PgmsgTableColumn, usize), ProtocolFault> {
        let (read, end) = TableColumn::item_at(content, at)?;
        Ok((place_of_table_column(at, &read), end))
    }

    fn give_front(
        _content: &[u8],
        list: PgmsgList,
        _to: &mut [PgmsgTableColumn],
    ) -> (usize, usize) {
        (0, list.at)
    }
}

// The place of the column that begins at an offset.
fn place_of_table_column(at: usize, read: &TableColumn<'_>) -> PgmsgTableColumn
    requires { at ≤ MAX_BODY }
    ensures { IsPlaceOf column column_in at (shown_column read.now) result }
{
    PgmsgTableColumn {
        flags: read.flags,
        name: span(at + 1, read.name),
        type_id: read.type_id,
        type_modifier: read.type_modifier,
    }
}
