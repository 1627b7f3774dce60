//! The changes of tables.

ghost use Rattle.std.specs.Prelude.{◌≤◌, length};
ghost use Rattle.pg_format.specs.Format.Places.{ReadsAfter};
ghost use Rattle.pg_format.specs.Logical as page;
ghost use Rattle.pg_replication.specs.Logical.{shown_insert, shown_update, shown_delete, shown_truncate};

use crate::logical::fields::{OutboundFields, Transaction, streamed_fields};
use crate::logical::old::{NewLetter, OldOrNone};
use crate::logical::relations::Truncated;
use crate::logical::{Old, Relations, Tuple};
use pg_base::ProtocolFault;
use pg_base::io::MAX_BODY;
use pg_base::io::part::{Number32, Then};

/// A new row. Documentation: "Logical Replication Message Formats", Insert.
#[derive(Clone, Copy)]
pub struct Insert<'a> {
    /// The transaction's number, where it is streamed.
    pub transaction: Option<u32>,
    /// The number of the table, as its [`Relation`](crate::logical::Relation) has it.
    pub relation: u32,
    /// The new row.
    pub new: Tuple<'a>,
}

type InsertParts<'a> = Then<Number32, Then<NewLetter, Tuple<'a>>>;

impl<'a> Insert<'a> {
    /// Reads what follows the letter, which stands before an offset of a message.
    pub(crate) fn read(
        message: &'a [u8],
        at: usize,
        streamed: bool,
    ) -> Result<Insert<'a>, ProtocolFault>
        requires within { at ≤ length message.now }
        requires short { length message.now ≤ MAX_BODY }
        ensures { ReadsAfter (page.insert streamed) shown_insert message.now at result }
    {
        let (transaction, Then(Number32(relation), Then(NewLetter, new))) = streamed_fields::<
            InsertParts<'a>,
        >(message, at, streamed)?;
        Ok(Insert {
            transaction,
            relation,
            new,
        })
    }
}

impl<'a> OutboundFields for Insert<'a> {
    ghost use Rattle.pg_replication.specs.Logical.Encode.{insert_part};

    type Parts = Then<Transaction, InsertParts<'a>>;

    ghost law = { insert_part };

    #[inline(always)]
    fn parts(&self) -> Self::Parts {
        let fields = Then(Number32(self.relation), Then(NewLetter, self.new));
        Then(Transaction(self.transaction), fields)
    }
}

/// A row that is changed. Documentation: "Logical Replication Message Formats", Update.
#[derive(Clone, Copy)]
pub struct Update<'a> {
    /// The transaction's number, where it is streamed.
    pub transaction: Option<u32>,
    /// The number of the table, as its [`Relation`](crate::logical::Relation) has it.
    pub relation: u32,
    /// The row before the change, or its key: where the key is changed, or the replica identity is FULL.
    pub old: Option<Old<'a>>,
    /// The row after the change.
    pub new: Tuple<'a>,
}

type UpdateParts<'a> = Then<Number32, Then<OldOrNone<'a>, Then<NewLetter, Tuple<'a>>>>;

impl<'a> Update<'a> {
    /// Reads what follows the letter, which stands before an offset of a message.
    pub(crate) fn read(
        message: &'a [u8],
        at: usize,
        streamed: bool,
    ) -> Result<Update<'a>, ProtocolFault>
        requires within { at ≤ length message.now }
        requires short { length message.now ≤ MAX_BODY }
        ensures { ReadsAfter (page.update streamed) shown_update message.now at result }
    {
        let (transaction, fields) = streamed_fields::<UpdateParts<'a>>(message, at, streamed)?;
        let Then(Number32(relation), Then(OldOrNone(old), Then(NewLetter, new))) = fields;
        Ok(Update {
            transaction,
            relation,
            old,
            new,
        })
    }
}

impl<'a> OutboundFields for Update<'a> {
    ghost use Rattle.pg_replication.specs.Logical.Encode.{update_part};

    type Parts = Then<Transaction, UpdateParts<'a>>;

    ghost law = { update_part };

    #[inline(always)]
    fn parts(&self) -> Self::Parts {
        let rows = Then(OldOrNone(self.old), Then(NewLetter, self.new));
        Then(
            Transaction(self.transaction),
            Then(Number32(self.relation), rows),
        )
    }
}

/// A row that is deleted. Documentation: "Logical Replication Message Formats", Delete.
#[derive(Clone, Copy)]
pub struct Delete<'a> {
    /// The transaction's number, where it is streamed.
    pub transaction: Option<u32>,
    /// The number of the table, as its [`Relation`](crate::logical::Relation) has it.
    pub relation: u32,
    /// The row, or its key.
    pub old: Old<'a>,
}

impl<'a> Delete<'a> {
    /// Reads what follows the letter, which stands before an offset of a message.
    pub(crate) fn read(
        message: &'a [u8],
        at: usize,
        streamed: bool,
    ) -> Result<Delete<'a>, ProtocolFault>
        requires within { at ≤ length message.now }
        requires short { length message.now ≤ MAX_BODY }
        ensures { ReadsAfter (page.delete streamed) shown_delete message.now at result }
    {
        let (transaction, Then(Number32(relation), old)) = streamed_fields::<
            Then<Number32, Old<'a>>,
        >(message, at, streamed)?;
        Ok(Delete {
            transaction,
            relation,
            old,
        })
    }
}

impl<'a> OutboundFields for Delete<'a> {
    ghost use Rattle.pg_replication.specs.Logical.Encode.{delete_part};

    type Parts = Then<Transaction, Then<Number32, Old<'a>>>;

    ghost law = { delete_part };

    #[inline(always)]
    fn parts(&self) -> Self::Parts {
        Then(
            Transaction(self.transaction),
            Then(Number32(self.relation), self.old),
        )
    }
}

/// Tables that are emptied. Documentation: "Logical Replication Message Formats", Truncate.
#[derive(Clone, Copy)]
pub struct Truncate<'a> {
    /// The transaction's number, where it is streamed.
    pub transaction: Option<u32>,
    /// Bits: 1 for CASCADE, 2 for RESTART IDENTITY.
    pub options: u8,
    /// The numbers of the tables.
    pub relations: Relations<'a>,
}

impl<'a> Truncate<'a> {
    /// Reads what follows the letter, which stands before an offset of a message.
    pub(crate) fn read(
        message: &'a [u8],
        at: usize,
        streamed: bool,
    ) -> Result<Truncate<'a>, ProtocolFault>
        requires within { at ≤ length message.now }
        requires short { length message.now ≤ MAX_BODY }
        ensures { ReadsAfter (page.truncate streamed) shown_truncate message.now at result }
    {
        let (transaction, Truncated(options, relations)) = streamed_fields::<Truncated<'a>>(
            message, at, streamed,
        )?;
        Ok(Truncate {
            transaction,
            options,
            relations,
        })
    }
}

impl<'a> OutboundFields for Truncate<'a> {
    ghost use Rattle.pg_replication.specs.Logical.Encode.{truncate_part};

    type Parts = Then<Transaction, Truncated<'a>>;

    ghost law = { truncate_part };

    #[inline(always)]
    fn parts(&self) -> Self::Parts {
        Then(
            Transaction(self.transaction),
            Truncated(self.options, self.relations),
        )
    }
}
