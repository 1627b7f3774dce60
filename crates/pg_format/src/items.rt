//! The items of a list after its count, read one by one or all at once: one walk for every reader.

mod item;
mod keeper;

ghost use Rattle.std.specs.Prelude.{◌≡◌, ◌==◌, ℕ, ◌+◌, ◌*◌, ◌≤◌, length, drop, IfOk, IfErr};
ghost use Rattle.pg_format.specs.Items.{IsCountFault, Begins, NextBreaks, FrontKept, AllKept, EndsBody, GivesNext};

pub use item::{Item, QuickItem};
pub use keeper::{Discard, Keeper};
use pg_base::ProtocolFault;
use pg_base::io::{MAX_BODY, bytes_at, u16_at};
use std::marker::Model;

// Where the first item begins, after the count.
const FIRST: usize = 2;

/// How far a list in a body is read. In a contract it is that, and how many items are left.
#[derive(Drop)]
pub struct Items<'a> {
    body: &'a [u8],
    // Where the next item begins.
    at: usize,
    left: usize,
}

impl<'a> Model for Items<'a> {
    ghost use Rattle.pg_format.specs.Items.{Reading, IsOffsetIn};

    ghost Value = { Reading };

    ghost view = { λ items. record { body = items.body.now; at = items.at; left = items.left } };

    ghost invariant = { λ items. IsOffsetIn items.body.now items.at };
}

impl<'a> Items<'a> {
    /// Begins with a body of at most [`MAX_BODY`] bytes, in which a count of two bytes stands before so
    /// many items of at least so many bytes.
    #[inline(always)]
    pub fn begin(body: &'a [u8], least: usize) -> Result<Items<'a>, ProtocolFault>
        requires short { length body.now ≤ MAX_BODY }
        requires small { least ≤ 65536 }
        ensures begun { IfOk result (Begins least body.now) }
        ensures fits { IfOk result (λ items. items.at + least * items.left ≤ length items.body) }
        ensures counted { IfOk result (λ items. items.left ≤ 65535) }
        ensures fault { IfErr result (IsCountFault least body.now) }
    {
        let left = usize::from(u16_at(body, 0)?);
        bytes_at(body, FIRST, least * left)?;
        Ok(Items {
            body,
            at: FIRST,
            left,
        })
    }

    /// Begins at an offset of a body of at most [`MAX_BODY`] bytes, with so many items.
    #[inline(always)]
    pub fn begin_at(body: &'a [u8], at: usize, left: usize) -> Items<'a>
        requires within { at ≤ length body.now }
        requires short { length body.now ≤ MAX_BODY }
        ensures { result ≡ record { body = body.now; at = at; left = left } }
    {
        Items { body, at, left }
    }

    /// How many items are left.
    #[inline(always)]
    pub fn len(&self) -> usize
        ensures { result ≡ self.now.left }
    {
        self.left
    }

    /// Whether no items are left.
    #[inline(always)]
    pub fn is_empty(&self) -> bool
        ensures { result ≡ (self.now.left == 0) }
    {
        self.len() == 0
    }

    /// The next item; or nothing where none is left. After a fault all is as it was.
    #[inline(always)]
    pub fn next<I: Item<'a>>(&mut self) -> Result<Option<I>, ProtocolFault>
        ensures item { GivesNext I.format I.shown self.old self.new result }
        ensures fault { IfErr result (NextBreaks I.format self.old self.new) }
    {
        if self.left == 0 {
            return Ok(None);
        }
        let (item, end) = match I::item_at(self.body, self.at) {
            Ok(found) => found,
            Err(why) => return Err(why),
        };
        self.at = end;
        self.left -= 1;
        Ok(Some(item))
    }

    /// The same, to be read once more.
    pub fn again(&self) -> Items<'a>
        ensures { result ≡ self.now }
    {
        Items {
            body: self.body,
            at: self.at,
            left: self.left,
        }
    }

    /// What follows the items that were read.
    #[inline(always)]
    pub fn rest(&self) -> &'a [u8]
        ensures { result.now ≡ drop self.now.at self.now.body }
    {
        &self.body[self.at..]
    }

    /// Reads all items that are left, and gives the offset after them.
    #[inline(always)]
    pub fn read_all<I: Item<'a>, K: Keeper<'a, I>>(
        &self,
        keeper: &mut K,
    ) -> Result<usize, ProtocolFault>
        requires room { K.has_room keeper.old self.now.left }
        ensures all { AllKept I.format I.shown K.keeps self.now keeper.old keeper.new result }
        ensures body { EndsBody I.format self.now result }
    {
        let mut at = self.at;
        for _index in 0..self.left {
            let (item, end) = I::item_at(self.body, at)?;
            keeper.keep(at, item, end);
            at = end;
        }
        Ok(at)
    }

    /// As [`Items::read_all`], of items of so many bytes at least, which the body has room for: by one
    /// test for each item, as far as none is broken.
    #[inline(always)]
    pub fn read_all_quickly<I: QuickItem<'a>, K: Keeper<'a, I>>(
        &self,
        least: usize,
        keeper: &mut K,
    ) -> Result<usize, ProtocolFault>
        requires room { K.has_room keeper.old self.now.left }
        requires least { least ≡ I.least }
        requires fits { self.now.at + least * self.now.left ≤ length self.now.body }
        ensures { AllKept I.Item.format I.Item.shown K.keeps self.now keeper.old keeper.new result }
    {
        let (index, at) = self.read_front::<I, K>(least, keeper);
        if index < self.left {
            let rest = Items {
                body: self.body,
                at,
                left: self.left - index,
            };
            return rest.read_rest::<I, K>(keeper);
        }
        Ok(at)
    }

    // Reads the items before one that is broken, or after which the body is too short for all.
    #[inline(always)]
    fn read_front<I: QuickItem<'a>, K: Keeper<'a, I>>(
        &self,
        least: usize,
        to: &mut K,
    ) -> (usize, usize)
        requires room { K.has_room to.old self.now.left }
        requires least { least ≡ I.least }
        requires fits { self.now.at + least * self.now.left ≤ length self.now.body }
        ensures few { result.0 ≤ self.now.left }
        ensures front { FrontKept I.Item.format I.Item.shown K.keeps self.now to.old to.new result }
        ensures room { (more : ℕ) → more + result.0 ≡ self.now.left → K.has_room to.new more }
    {
        // Where an item ends at most, since each that follows takes bytes.
        let mut last = self.body.len() - least * self.left;
        let mut at = self.at;
        for index in 0..self.left {
            last += least;
            let Some((item, end)) = I::item_until(self.body, at, last) else {
                return (index, at);
            };
            to.keep(at, item, end);
            at = end;
        }
        (self.left, at)
    }

    // The rest, of which an item is broken.
    #[cold]
    #[inline(never)]
    fn read_rest<I: Item<'a>, K: Keeper<'a, I>>(
        &self,
        keeper: &mut K,
    ) -> Result<usize, ProtocolFault>
        requires room { K.has_room keeper.old self.now.left }
        ensures { AllKept I.format I.shown K.keeps self.now keeper.old keeper.new result }
    {
        self.read_all::<I, K>(keeper)
    }
}
