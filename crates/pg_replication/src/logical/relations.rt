//! The tables of a Truncate.

ghost use Rattle.std.specs.Prelude.{◌≡◌, ◌==◌, ◌^◌, ◌<◌, ◌≤◌, length, IfErr};
ghost use Rattle.std.specs.Iterator.{YieldsFirstBy, item_count};
ghost use Rattle.pg_format.specs.Format.Lists.{times};
ghost use Rattle.pg_format.specs.Format.Parts.{be_u32};
ghost use Rattle.pg_format.specs.Format.Places.{BreaksAt, ReadsAt};
ghost use Rattle.pg_format.proofs.FormatLaws.Logical.{total_id};
ghost use Rattle.pg_format.specs.Received.{max_body};
ghost use Rattle.pg_format.specs.Listed.{values_in};

use crate::logical::listed::{Listed, ListedItems};
use pg_base::ProtocolFault;
use pg_base::io::part::{Number32, Part};
use pg_base::io::{MAX_BODY, Sink, u8_at, u32_at};
use pg_format::items::{Discard, Item, Items};

/// The numbers of tables in order, borrowed from their message or from a caller. A copy is walked on its own.
#[derive(Clone, Copy)]
pub struct Relations<'a> {
    // Those of a message, from the next table on.
    bytes: &'a [u8],
    left: usize,
    // Those of a caller, after them.
    given: &'a [u32],
    ghost short: { length bytes.now ≤ max_body },
    ghost whole: { length (values_in total_id left bytes.now) ≡ left },
    ghost few: { left < 2 ^ 32 },
}

impl<'a> Relations<'a> {
    ghost use Rattle.pg_replication.specs.Logical.Relations.{relation_ids};

    /// These tables, to be written.
    pub fn of(given: &'a [u32]) -> Relations<'a>
        ensures { relation_ids result ≡ given.now }
    {
        Relations {
            bytes: &[],
            left: 0,
            given,
        }
    }

    /// So many tables at an offset of a message, and the offset after them.
    pub(crate) fn read(
        message: &'a [u8],
        at: usize,
        left: usize,
    ) -> Result<(Relations<'a>, usize), ProtocolFault>
        requires within { at ≤ length message.now }
        requires short { length message.now ≤ MAX_BODY }
        requires few { left < 2 ^ 32 }
        ensures tables { ReadsAt (times left be_u32) relation_ids message.now at result }
        ensures broken { IfErr result (BreaksAt (times left be_u32) message.now at) }
    {
        let items = Items::begin_at(message, at, left);
        let end = items.read_all::<Number32, Discard>(&mut Discard)?;
        let relations = Relations {
            bytes: &message[at..],
            left,
            given: &[],
        };
        Ok((relations, end))
    }

    /// How many tables are left.
    pub fn len(&self) -> usize
        ensures { result ≡ length (relation_ids self.now) }
    {
        self.left + self.given.len()
    }

    /// Whether no tables are left.
    pub fn is_empty(&self) -> bool
        ensures { result ≡ (length (relation_ids self.now) == 0) }
    {
        self.len() == 0
    }
}

impl<'a> Iterator for Relations<'a> {
    ghost use Rattle.pg_replication.specs.Logical.Relations.{relation_ids};

    type Item = u32;

    ghost next_gives = { YieldsFirstBy (λ id. id) relation_ids };

    ghost remaining = { item_count relation_ids };

    fn next(&mut self) -> Option<u32> {
        if self.left == 0 {
            let (id, given) = self.given.split_first()?;
            *self = Relations::of(given);
            return Some(*id);
        }
        let Ok((Number32(id), end)) = Number32::item_at(self.bytes, 0) else {
            return None;
        };
        *self = Relations {
            bytes: &self.bytes[end..],
            left: self.left - 1,
            given: self.given,
        };
        Some(id)
    }
}

/// The options of a Truncate, and its tables, after their count.
#[derive(Clone, Copy)]
pub(crate) struct Truncated<'a>(pub u8, pub Relations<'a>);

impl<'a> Item<'a> for Truncated<'a> {
    ghost use Rattle.std.specs.Prelude.{ℕ, List};
    ghost use Rattle.pg_format.specs.Logical.{truncated};
    ghost use Rattle.pg_replication.specs.Logical.Relations.{relation_ids};

    ghost Shown = { ℕ × List ℕ };

    ghost shown = { λ it. (it.0, relation_ids it.1) };

    ghost format = { truncated };

    fn item_at(body: &'a [u8], at: usize) -> Result<(Truncated<'a>, usize), ProtocolFault> {
        let count = u32_at(body, at)? as usize;
        let options = u8_at(body, at + 4)?;
        let (relations, end) = Relations::read(body, at + 5, count)?;
        Ok((Truncated(options, relations), end))
    }
}

impl<'a> Listed for Relations<'a> {
    ghost use Rattle.std.specs.Prelude.{ℕ, false};
    ghost use Rattle.pg_replication.specs.Logical.Relations.{relation_ids};

    type Parts = Number32;

    ghost Value = { ℕ };

    ghost values = { relation_ids };

    ghost format = { be_u32 };

    ghost is_broken = { λ _. false };

    ghost IsInRange = { λ n. n < 2 ^ 32 };

    #[inline(always)]
    fn step(&mut self) -> Option<Number32> {
        match self.next() {
            Some(id) => Some(Number32(id)),
            None => None,
        }
    }
}

impl Part for Truncated<'_> {
    ghost use Rattle.pg_replication.specs.Logical.Relations.{relation_ids};
    ghost use Rattle.pg_replication.specs.Logical.Encode.{truncated_part};

    ghost part = { λ it. truncated_part (it.0, relation_ids it.1) };

    fn len(&self) -> usize {
        ListedItems(self.1).len().saturating_add(5)
    }

    fn fault(&self) -> Option<ProtocolFault> {
        None
    }

    fn put<S: Sink>(&self, sink: &mut S) {
        sink.put_u32(self.1.len() as u32);
        sink.put_u8(self.0);
        ListedItems(self.1).put(sink);
    }
}
