//! The tables and the types that the changes speak of.

ghost use Rattle.std.specs.Prelude.{◌≤◌, length};
ghost use Rattle.pg_format.specs.Format.Places.{ReadsAfter};
ghost use Rattle.pg_format.specs.Logical as page;
ghost use Rattle.pg_replication.specs.Logical.{shown_relation, shown_type_name};

use crate::logical::TableColumns;
use crate::logical::fields::{OutboundFields, Transaction, streamed_fields};
use pg_base::ProtocolFault;
use pg_base::io::MAX_BODY;
use pg_base::io::part::{Number32, Then};
use pg_format::field::Number8;
use pg_server::backend::NulEnded;

/// A table and its columns, before the first change of it and where they are others than before. Documentation:
/// "Logical Replication Message Formats", Relation.
#[derive(Clone, Copy)]
pub struct Relation<'a> {
    /// The transaction's number, where it is streamed.
    pub transaction: Option<u32>,
    /// The number of the table, by which changes name it.
    pub relation: u32,
    /// The table's schema: empty for `pg_catalog`.
    pub schema: &'a [u8],
    /// The table's name.
    pub name: &'a [u8],
    /// What is sent of a row before its change, as `pg_class.relreplident` has it: `d`, `n`, `f` or `i`.
    pub replica_identity: u8,
    /// The table's columns, without those that are generated.
    pub columns: TableColumns<'a>,
}

type RelationParts<'a> = Then<
    Number32,
    Then<NulEnded<'a>, Then<NulEnded<'a>, Then<Number8, TableColumns<'a>>>>,
>;

impl<'a> Relation<'a> {
    /// Reads what follows the letter, which stands before an offset of a message.
    pub(crate) fn read(
        message: &'a [u8],
        at: usize,
        streamed: bool,
    ) -> Result<Relation<'a>, ProtocolFault>
        requires within { at ≤ length message.now }
        requires short { length message.now ≤ MAX_BODY }
        ensures { ReadsAfter (page.relation streamed) shown_relation message.now at result }
    {
        let (transaction, fields) = streamed_fields::<RelationParts<'a>>(message, at, streamed)?;
        let Then(Number32(relation), Then(NulEnded(schema), Then(NulEnded(name), fields))) = fields;
        let Then(Number8(replica_identity), columns) = fields;
        Ok(Relation {
            transaction,
            relation,
            schema,
            name,
            replica_identity,
            columns,
        })
    }
}

impl<'a> OutboundFields for Relation<'a> {
    ghost use Rattle.pg_replication.specs.Logical.Encode.{relation_part};

    type Parts = Then<Transaction, RelationParts<'a>>;

    ghost law = { relation_part };

    #[inline(always)]
    fn parts(&self) -> Self::Parts {
        let columns = Then(Number8(self.replica_identity), self.columns);
        let names = Then(NulEnded(self.schema), Then(NulEnded(self.name), columns));
        Then(
            Transaction(self.transaction),
            Then(Number32(self.relation), names),
        )
    }
}

/// The name of a type that isn't built in, before the first table with a column of it. Documentation: "Logical
/// Replication Message Formats", Type.
#[derive(Clone, Copy, Debug, PartialEq, Eq)]
pub struct TypeName<'a> {
    /// The transaction's number, where it is streamed.
    pub transaction: Option<u32>,
    /// The number of the type, by which columns name it.
    pub type_id: u32,
    /// The type's schema: empty for `pg_catalog`.
    pub schema: &'a [u8],
    /// The type's name.
    pub name: &'a [u8],
}

type TypeNameParts<'a> = Then<Number32, Then<NulEnded<'a>, NulEnded<'a>>>;

impl<'a> TypeName<'a> {
    /// Reads what follows the letter, which stands before an offset of a message.
    pub(crate) fn read(
        message: &'a [u8],
        at: usize,
        streamed: bool,
    ) -> Result<TypeName<'a>, ProtocolFault>
        requires within { at ≤ length message.now }
        requires short { length message.now ≤ MAX_BODY }
        ensures { ReadsAfter (page.type_name streamed) shown_type_name message.now at result }
    {
        let (transaction, Then(Number32(type_id), Then(NulEnded(schema), NulEnded(name)))) =
            streamed_fields::<TypeNameParts<'a>>(message, at, streamed)?;
        Ok(TypeName {
            transaction,
            type_id,
            schema,
            name,
        })
    }
}

impl<'a> OutboundFields for TypeName<'a> {
    ghost use Rattle.pg_replication.specs.Logical.Encode.{type_name_part};

    type Parts = Then<Transaction, TypeNameParts<'a>>;

    ghost law = { type_name_part };

    #[inline(always)]
    fn parts(&self) -> Self::Parts {
        let names = Then(NulEnded(self.schema), NulEnded(self.name));
        Then(
            Transaction(self.transaction),
            Then(Number32(self.type_id), names),
        )
    }
}
