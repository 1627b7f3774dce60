//! Where the items of a list go.

ghost use Rattle.std.specs.Prelude.{ℕ, suc};
ghost use Rattle.pg_format.specs.Items.{Keeps, KeepsOne, Stands};

use crate::items::Item;

/// Takes the items of a list, in order.
pub trait Keeper<'a, I: Item<'a>> {
    /// What it has of the items of a body that stand from one offset to another.
    ghost keeps: { Keeps Self I };

    /// It takes so many items more.
    ghost has_room: { Self → ℕ → Type 0 };

    /// Takes the item that stands from one offset to another.
    fn keep(&mut self, at: usize, item: I, end: usize)
        requires room { (more : ℕ) × has_room self.old (suc more) }
        requires read { Stands I.format at (I.shown item) end }
        ensures kept { KeepsOne I.format I.shown keeps at item end self.old self.new }
        ensures room { (more : ℕ) → has_room self.old (suc more) → has_room self.new more };
}

/// Keeps nothing, for who wants the end alone.
#[derive(Drop)]
pub struct Discard;

impl<'a, I: Item<'a>> Keeper<'a, I> for Discard {
    ghost keeps = { λ now body first items at. Unit {0} };

    ghost has_room = { λ now more. Unit {0} };

    #[inline(always)]
    fn keep(&mut self, _at: usize, _item: I, _end: usize) {}
}
