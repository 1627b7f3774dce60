//! The values of a row.

ghost use Rattle.std.specs.Prelude.{◌≡◌, ◌==◌, ◌^◌, ◌<◌, ◌≤◌, length, map, slice_get, option_map};
ghost use Rattle.std.specs.Iterator.{YieldsFirstBy, item_count};
ghost use Rattle.pg_format.proofs.FormatLaws.Logical.{total_datum};
ghost use Rattle.pg_format.specs.Received.{max_body};
ghost use Rattle.pg_format.specs.Listed.{values_in};

use crate::logical::datum::{DatumParts, kinds_fault};
use crate::logical::listed::{Listed, ListedItems};
use crate::logical::{Datum, OutboundDatum};
use pg_base::ProtocolFault;
use pg_base::io::part::{Part, Then};
use pg_base::io::{Sink, u16_at};
use pg_format::items::{Discard, Item, Items};
use pg_server::backend::{Count, OutboundItem};

/// The values of the columns of a row in order, borrowed from their message or from a caller. Documentation: "Logical
/// Replication Message Formats", TupleData. A copy is walked on its own.
#[derive(Clone, Copy)]
pub struct Tuple<'a> {
    // Those of a message, from the next value on.
    bytes: &'a [u8],
    left: usize,
    // Those of a caller, after them.
    given: &'a [OutboundDatum<'a>],
    ghost short: { length bytes.now ≤ max_body },
    ghost whole: { length (values_in total_datum left bytes.now) ≡ left },
    ghost few: { left < 2 ^ 32 },
}

impl<'a> Tuple<'a> {
    ghost use Rattle.pg_replication.specs.Logical.Tuple.{datums, shown_datum, shown_text, kinds_fault, IsMade};

    /// These values, to be written. One of another kind than the four is refused with `UnknownLetter`.
    pub fn of(given: &'a [OutboundDatum<'a>]) -> Result<Tuple<'a>, ProtocolFault>
        ensures { IsMade datums (kinds_fault given.now) (map shown_text given.now) result }
    {
        match kinds_fault(given) {
            None => Ok(Tuple::given(given)),
            Some(fault) => Err(fault),
        }
    }

    // Values whose kinds are known.
    fn given(given: &'a [OutboundDatum<'a>]) -> Tuple<'a>
        ensures { datums result ≡ map shown_text given.now }
    {
        Tuple {
            bytes: &[],
            left: 0,
            given,
        }
    }

    /// How many values are left.
    pub fn len(&self) -> usize
        ensures { result ≡ length (datums self.now) }
    {
        self.left + self.given.len()
    }

    /// Whether no values are left.
    pub fn is_empty(&self) -> bool
        ensures { result ≡ (length (datums self.now) == 0) }
    {
        self.len() == 0
    }

    /// The value at a position, counted from those that are left, where there is one. It goes over the values in front
    /// of it.
    pub fn get(&self, index: usize) -> Option<Datum<'a>>
        ensures { option_map shown_datum result ≡ slice_get (datums self.now) index }
    {
        let mut values = *self;
        values.nth(index)
    }
}

impl<'a> Iterator for Tuple<'a> {
    ghost use Rattle.pg_replication.specs.Logical.Tuple.{datums, shown_datum};

    type Item = Datum<'a>;

    ghost next_gives = { YieldsFirstBy shown_datum datums };

    ghost remaining = { item_count datums };

    fn next(&mut self) -> Option<Datum<'a>> {
        if self.left == 0 {
            let (value, given) = self.given.split_first()?;
            *self = Tuple::given(given);
            return Some(value.datum());
        }
        let Ok((value, end)) = Datum::item_at(self.bytes, 0) else {
            return None;
        };
        *self = Tuple {
            bytes: &self.bytes[end..],
            left: self.left - 1,
            given: self.given,
        };
        Some(value)
    }
}

impl<'a> Item<'a> for Tuple<'a> {
    ghost use Rattle.std.specs.Prelude.{List};
    ghost use Rattle.pg_format.specs.Format.Lists.{counted};
    ghost use Rattle.pg_format.specs.Logical as page;
    ghost use Rattle.pg_replication.specs.Logical.Tuple.{datums};

    ghost Shown = { List page.Datum };

    ghost shown = { datums };

    ghost format = { counted page.datum };

    fn item_at(body: &'a [u8], at: usize) -> Result<(Tuple<'a>, usize), ProtocolFault> {
        let left = usize::from(u16_at(body, at)?);
        let items = Items::begin_at(body, at + 2, left);
        let end = items.read_all::<Datum, Discard>(&mut Discard)?;
        let tuple = Tuple {
            bytes: &body[at + 2..],
            left,
            given: &[],
        };
        Ok((tuple, end))
    }
}

impl<'a> Listed for Tuple<'a> {
    ghost use Rattle.std.specs.Prelude.{false};
    ghost use Rattle.pg_format.specs.Logical as page;
    ghost use Rattle.pg_replication.specs.Logical.Tuple.{datums};

    type Parts = DatumParts<'a>;

    ghost Value = { page.Datum };

    ghost values = { datums };

    ghost format = { page.datum };

    ghost is_broken = { λ _. false };

    ghost IsInRange = { λ _. Unit {0} };

    #[inline(always)]
    fn step(&mut self) -> Option<DatumParts<'a>> {
        match self.next() {
            Some(value) => Some(OutboundItem::parts(&value)),
            None => None,
        }
    }
}

impl Part for Tuple<'_> {
    ghost use Rattle.pg_replication.specs.Logical.Tuple.{datums};
    ghost use Rattle.pg_replication.specs.Logical.Encode.{tuple_part};

    ghost part = { λ it. tuple_part (datums it) };

    fn len(&self) -> usize {
        Then(Count(self.len()), ListedItems(*self)).len()
    }

    fn fault(&self) -> Option<ProtocolFault> {
        Then(Count(self.len()), ListedItems(*self)).fault()
    }

    fn put<S: Sink>(&self, sink: &mut S) {
        Then(Count(self.len()), ListedItems(*self)).put(sink);
    }
}
