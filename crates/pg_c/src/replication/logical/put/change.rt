//! The changes of tables, and the tables and types that they speak of, as a C program passes them.

ghost use Rattle.std.specs.Prelude.{◌≡◌, option_map};
ghost use Rattle.pg_replication.specs.Logical.{shown_relation, shown_type_name, shown_insert};
ghost use Rattle.pg_replication.specs.Logical.{shown_update, shown_delete, shown_truncate};
ghost use Rattle.pg_replication.specs.Logical.Old.{shown_old};
ghost use Rattle.pg_replication.specs.Logical.Tuple.{kinds_fault, IsMade};
ghost use Rattle.pg_c.specs.Replication.Logical.Put.{relation_of, type_name_of, insert_of, update_of};
ghost use Rattle.pg_c.specs.Replication.Logical.Put.{delete_of, truncate_of, sent_of, old_of};
ghost use Rattle.pg_c.specs.Replication.Logical.Put.{update_fault, sent_fault, old_fault};

use crate::replication::logical::put::PgmsgLogicalText;
use crate::replication::logical::put::transaction::transaction_of;
use pg_base::ProtocolFault;
use pg_replication::logical::{
    Delete, Insert, Old, Relation, Relations, TableColumns, Truncate, Tuple, TypeName, Update,
};

pub(crate) fn relation_of<'a>(text: &PgmsgLogicalText<'a>) -> Relation<'a>
    ensures { shown_relation result ≡ relation_of text.now }
{
    Relation {
        transaction: transaction_of(text),
        relation: text.relation,
        schema: text.schema,
        name: text.name,
        replica_identity: text.replica_identity,
        columns: TableColumns::of(text.columns),
    }
}

pub(crate) fn type_name_of<'a>(text: &PgmsgLogicalText<'a>) -> TypeName<'a>
    ensures { shown_type_name result ≡ type_name_of text.now }
{
    TypeName {
        transaction: transaction_of(text),
        type_id: text.type_id,
        schema: text.schema,
        name: text.name,
    }
}

pub(crate) fn insert_of<'a>(text: &PgmsgLogicalText<'a>) -> Result<Insert<'a>, ProtocolFault>
    ensures { IsMade shown_insert (kinds_fault text.now.values.now) (insert_of text.now) result }
{
    Ok(Insert {
        transaction: transaction_of(text),
        relation: text.relation,
        new: Tuple::of(text.values)?,
    })
}

pub(crate) fn update_of<'a>(text: &PgmsgLogicalText<'a>) -> Result<Update<'a>, ProtocolFault>
    ensures { IsMade shown_update (update_fault text.now) (update_of text.now) result }
{
    Ok(Update {
        transaction: transaction_of(text),
        relation: text.relation,
        old: sent_of(text)?,
        new: Tuple::of(text.values)?,
    })
}

pub(crate) fn delete_of<'a>(text: &PgmsgLogicalText<'a>) -> Result<Delete<'a>, ProtocolFault>
    ensures { IsMade shown_delete (old_fault text.now) (delete_of text.now) result }
{
    Ok(Delete {
        transaction: transaction_of(text),
        relation: text.relation,
        old: old_of(text)?,
    })
}

pub(crate) fn truncate_of<'a>(text: &PgmsgLogicalText<'a>) -> Truncate<'a>
    ensures { shown_truncate result ≡ truncate_of text.now }
{
    Truncate {
        transaction: transaction_of(text),
        options: text.flags,
        relations: Relations::of(text.relations),
    }
}

// What is sent of a row before its change, or nothing.
fn sent_of<'a>(text: &PgmsgLogicalText<'a>) -> Result<Option<Old<'a>>, ProtocolFault>
    ensures { IsMade (option_map shown_old) (sent_fault text.now) (sent_of text.now) result }
{
    if text.old_letter == 0 {
        return Ok(None);
    }
    Ok(Some(old_of(text)?))
}

// What is sent of a row before its change.
fn old_of<'a>(text: &PgmsgLogicalText<'a>) -> Result<Old<'a>, ProtocolFault>
    ensures { IsMade shown_old (old_fault text.now) (old_of text.now) result }
{
    match text.old_letter {
        b'K' => Ok(Old::Key(Tuple::of(text.old_values)?)),
        b'O' => Ok(Old::Whole(Tuple::of(text.old_values)?)),
        other => Err(ProtocolFault::UnknownLetter(other)),
    }
}
