//! The changes of tables, and the tables and types that they speak of, as they are given.

ghost use Rattle.std.specs.Prelude.{◌≡◌, ◌+◌, ◌≤◌, length, option_map};
ghost use Rattle.pg_replication.specs.Logical.Old.{shown_old};
ghost use Rattle.pg_replication.specs.Logical.Tuple.{datums};
ghost use Rattle.pg_c.specs.Replication.Logical.{IsUpdate, given_update, letter_of, old_values};
ghost use Rattle.pg_c.specs.Replication.Logical.Places.{MeansUpdate, OldReads, OldIsGiven};
ghost use Rattle.pg_c.specs.Replication.Logical.Places.{RowReads, RowEnds};
ghost use Rattle.pg_c.specs.Replication.Logical.Places.{placed_relation, placed_type_name};
ghost use Rattle.pg_c.specs.Replication.Logical.Places.{placed_insert, placed_delete};
ghost use Rattle.pg_c.specs.Replication.Logical.Places.{placed_truncate};
ghost use Rattle.pg_c.specs.Replication.Logical.Places.{row_letter_at, row_place};

use crate::place::{PgmsgList, span};
use crate::replication::logical::read::{
    NO_LIST, NUMBER_LENGTH, PgmsgLogical, begun, fields_after,
};
use pg_base::io::MAX_BODY;
use pg_format::items::Item;
use pg_replication::logical::{Delete, Insert, Old, Relation, Truncate, Tuple, TypeName, Update};

// The bytes before the first value of a row: its letter and its count.
const BEFORE_ROW: usize = 3;

// The bytes between a table's name and its first column: a NUL, the replica identity and a count.
const BEFORE_COLUMNS: usize = 4;

// The bytes of the fields before the first table of a Truncate: a count and the options.
const BEFORE_RELATIONS: usize = 5;

pub(crate) fn given_relation(relation: &Relation<'_>) -> PgmsgLogical
    requires { length relation.now.schema.now + length relation.now.name.now ≤ MAX_BODY }
    ensures { result ≡ placed_relation relation.now }
{
    let at = fields_after(relation.transaction) + NUMBER_LENGTH;
    let name = at + relation.schema.len() + 1;
    PgmsgLogical {
        relation: relation.relation,
        schema: span(at, relation.schema),
        name: span(name, relation.name),
        replica_identity: relation.replica_identity,
        columns: PgmsgList {
            at: name + relation.name.len() + BEFORE_COLUMNS,
            count: relation.columns.len(),
        },
        ..begun(b'R', relation.transaction)
    }
}

pub(crate) fn given_type_name(named: &TypeName<'_>) -> PgmsgLogical
    ensures { result ≡ placed_type_name named.now }
{
    let at = fields_after(named.transaction) + NUMBER_LENGTH;
    PgmsgLogical {
        type_id: named.type_id,
        schema: span(at, named.schema),
        name: span(at + named.schema.len() + 1, named.name),
        ..begun(b'Y', named.transaction)
    }
}

pub(crate) fn given_insert(insert: &Insert<'_>) -> PgmsgLogical
    ensures { result ≡ placed_insert insert.now }
{
    PgmsgLogical {
        relation: insert.relation,
        new_row: row_at(row_letter_at(insert.transaction), &insert.new),
        ..begun(b'I', insert.transaction)
    }
}

pub(crate) fn given_update(content: &[u8], update: &Update<'_>) -> PgmsgLogical
    requires some { 1 ≤ length content.now }
    requires short { length content.now ≤ MAX_BODY }
    requires means { MeansUpdate content.now update.now }
    ensures { IsUpdate content.now update.now result }
{
    let at = row_letter_at(update.transaction);
    let (old_row, end) = old_row_at(content, at, update.old);
    update_of(update, old_row, row_at(end, &update.new))
}

// The fields of an Update whose rows are at these places.
fn update_of(update: &Update<'_>, old_row: PgmsgList, new_row: PgmsgList) -> PgmsgLogical
    ensures { result ≡ given_update update.now old_row new_row }
{
    PgmsgLogical {
        relation: update.relation,
        old_letter: letter_of(update.old),
        old_row,
        new_row,
        ..begun(b'U', update.transaction)
    }
}

pub(crate) fn given_delete(delete: &Delete<'_>) -> PgmsgLogical
    ensures { result ≡ placed_delete delete.now }
{
    PgmsgLogical {
        relation: delete.relation,
        old_letter: letter_of(Some(delete.old)),
        old_row: row_at(row_letter_at(delete.transaction), &row_of(&delete.old)),
        ..begun(b'D', delete.transaction)
    }
}

pub(crate) fn given_truncate(truncate: &Truncate<'_>) -> PgmsgLogical
    ensures { result ≡ placed_truncate truncate.now }
{
    PgmsgLogical {
        flags: truncate.options,
        relations: PgmsgList {
            at: fields_after(truncate.transaction) + BEFORE_RELATIONS,
            count: truncate.relations.len(),
        },
        ..begun(b'T', truncate.transaction)
    }
}

// Where the letter of the first row is.
fn row_letter_at(transaction: Option<u32>) -> usize
    ensures { result ≡ row_letter_at transaction }
{
    fields_after(transaction) + NUMBER_LENGTH
}

// The place of a row whose letter is at an offset.
fn row_at(at: usize, row: &Tuple<'_>) -> PgmsgList
    requires { at ≤ MAX_BODY }
    ensures { result ≡ row_place at (datums row.now) }
{
    PgmsgList {
        at: at + BEFORE_ROW,
        count: row.len(),
    }
}

// The place of what was sent of a row before its change, and the offset after it.
fn old_row_at(content: &[u8], at: usize, old: Option<Old<'_>>) -> (PgmsgList, usize)
    requires within { at ≤ length content.now }
    requires short { length content.now ≤ MAX_BODY }
    requires reads { OldReads content.now at (option_map shown_old old) }
    ensures { OldIsGiven content.now at (option_map shown_old old.entry) result }
{
    match old {
        None => (NO_LIST, at),
        Some(old) => (row_at(at, &row_of(&old)), end_of_row(content, at + 1)),
    }
}

// The offset after a row whose count is at one.
fn end_of_row(content: &[u8], at: usize) -> usize
    requires within { at ≤ length content.now }
    requires short { length content.now ≤ MAX_BODY }
    requires reads { RowReads content.now at }
    ensures { RowEnds content.now at result }
{
    match Tuple::item_at(content, at) {
        Ok((_row, end)) => end,
        Err(_) => at,
    }
}

fn letter_of(old: Option<Old<'_>>) -> u8
    ensures { result ≡ letter_of (option_map shown_old old.entry) }
{
    match old {
        None => 0,
        Some(Old::Key(_)) => b'K',
        Some(Old::Whole(_)) => b'O',
    }
}

fn row_of<'a>(old: &Old<'a>) -> Tuple<'a>
    ensures { datums result ≡ old_values (shown_old old.now) }
{
    match old {
        Old::Key(row) | Old::Whole(row) => *row,
    }
}
