//! The ends of the cells of a row, kept in lists.

ghost use Rattle.std.specs.Prelude.{◌+◌, ◌≤◌, vec_len, vec_capacity};
ghost use Rattle.smallvec.specs.SmallVec.{HasRoomFor};
ghost use Rattle.pg_receive.specs.DataRow.CellEnd.{KeepsCells};

use crate::message::data_row::cell::Cell;
use crate::message::data_row::cell_end::CellEnd;
use pg_format::items::Keeper;
use smallvec::SmallVec;

impl<'a> Keeper<'a, Cell<'a>> for Vec<CellEnd> {
    ghost keeps = { λ now. KeepsCells now.items };

    ghost has_room = { λ now more. vec_len now + more ≤ vec_capacity now };

    #[inline(always)]
    fn keep(&mut self, _at: usize, cell: Cell<'a>, end: usize) {
        self.push_reserved(CellEnd::new(end, cell.0.is_none()));
    }
}

impl<'a> Keeper<'a, Cell<'a>> for SmallVec<CellEnd, 8> {
    ghost keeps = { λ now. KeepsCells now.items };

    ghost has_room = { HasRoomFor };

    #[inline(always)]
    fn keep(&mut self, _at: usize, cell: Cell<'a>, end: usize) {
        self.push_reserved(CellEnd::new(end, cell.0.is_none()));
    }
}
