//! The fields of a body: the parts by which it is written also say how it is read.

ghost use Rattle.std.specs.Prelude.{◌≤◌, length};
ghost use Rattle.pg_format.specs.Format.Ends.{exactly};
ghost use Rattle.pg_format.specs.Format.Places.{ReadsAfter};

use crate::items::Item;
use crate::text::text_at;
use pg_base::ProtocolFault;
use pg_base::io::part::{NoBytes, Number32, Number64, Part, Slice, Then};
use pg_base::io::{Ended, MAX_BODY, Sink, bytes_at, i16_at, i32_at, i64_at, u8_at, u32_at, u64_at};

/// The fields that a body of at most [`MAX_BODY`] bytes has from an offset on. Nothing may follow them, else the
/// body is refused with `TrailingBytes` from there on.
pub fn fields_from<'a, F: Item<'a>>(body: &'a [u8], at: usize) -> Result<F, ProtocolFault>
    requires within { at ≤ length body.now }
    requires short { length body.now ≤ MAX_BODY }
    ensures { ReadsAfter (exactly F.format) F.shown body.now at result }
{
    let (fields, end) = F::item_at(body, at)?;
    if end < body.len() {
        return Err(ProtocolFault::TrailingBytes { at: end });
    }
    Ok(fields)
}

impl<'a, A: Item<'a> + Copy, B: Item<'a> + Copy> Item<'a> for Then<A, B> {
    ghost use Rattle.pg_format.specs.Format.Sequences.{◌⨾◌};

    ghost Shown = { A.Shown × B.Shown };

    ghost shown = { λ both. (A.shown both.0, B.shown both.1) };

    ghost format = { A.format ⨾ B.format };

    #[inline(always)]
    fn item_at(body: &'a [u8], at: usize) -> Result<(Then<A, B>, usize), ProtocolFault> {
        let (first, mid) = A::item_at(body, at)?;
        let (second, end) = B::item_at(body, mid)?;
        Ok((Then(first, second), end))
    }
}

/// A number of one byte.
#[derive(Clone, Copy)]
pub struct Number8(pub u8);

impl Part for Number8 {
    ghost use Rattle.pg_format.specs.Field.{number8};

    ghost part = { λ it. number8 it.0 };

    #[inline(always)]
    fn len(&self) -> usize {
        1
    }

    #[inline(always)]
    fn fault(&self) -> Option<ProtocolFault> {
        None
    }

    #[inline(always)]
    fn put<S: Sink>(&self, sink: &mut S) {
        sink.put_u8(self.0);
    }
}

impl<'a> Item<'a> for Number8 {
    ghost use Rattle.std.specs.Prelude.{ℕ};
    ghost use Rattle.pg_format.specs.Format.Parts.{be_u8};

    ghost Shown = { ℕ };

    ghost shown = { λ it. it.0 };

    ghost format = { be_u8 };

    #[inline(always)]
    fn item_at(body: &'a [u8], at: usize) -> Result<(Number8, usize), ProtocolFault> {
        Ok((Number8(u8_at(body, at)?), at + 1))
    }
}

impl<'a> Item<'a> for Number32 {
    ghost use Rattle.std.specs.Prelude.{ℕ};
    ghost use Rattle.pg_format.specs.Format.Parts.{be_u32};

    ghost Shown = { ℕ };

    ghost shown = { λ it. it.0 };

    ghost format = { be_u32 };

    #[inline(always)]
    fn item_at(body: &'a [u8], at: usize) -> Result<(Number32, usize), ProtocolFault> {
        Ok((Number32(u32_at(body, at)?), at + 4))
    }
}

impl<'a> Item<'a> for Number64 {
    ghost use Rattle.std.specs.Prelude.{ℕ};
    ghost use Rattle.pg_format.specs.Format.Parts.{be_u64};

    ghost Shown = { ℕ };

    ghost shown = { λ it. it.0 };

    ghost format = { be_u64 };

    #[inline(always)]
    fn item_at(body: &'a [u8], at: usize) -> Result<(Number64, usize), ProtocolFault> {
        Ok((Number64(u64_at(body, at)?), at + 8))
    }
}

impl<'a> Item<'a> for Slice<'a> {
    ghost use Rattle.std.specs.Prelude.{ℕ, List};
    ghost use Rattle.pg_format.specs.Format.Parts.{remaining};

    ghost Shown = { List ℕ };

    ghost shown = { λ it. it.0.now };

    ghost format = { remaining };

    /// All bytes that are left.
    #[inline(always)]
    fn item_at(body: &'a [u8], at: usize) -> Result<(Slice<'a>, usize), ProtocolFault> {
        Ok((Slice(&body[at..]), body.len()))
    }
}

impl<'a> Item<'a> for NoBytes {
    ghost use Rattle.pg_format.specs.Format.Parts.{success};

    ghost Shown = { Unit {0} };

    ghost shown = { λ _. tt };

    ghost format = { success tt };

    #[inline(always)]
    fn item_at(_body: &'a [u8], at: usize) -> Result<(NoBytes, usize), ProtocolFault> {
        Ok((NoBytes, at))
    }
}

/// A signed number of eight bytes.
#[derive(Clone, Copy)]
pub struct Signed64(pub i64);

impl Part for Signed64 {
    ghost use Rattle.pg_format.specs.Field.{signed64};

    ghost part = { λ it. signed64 it.0 };

    #[inline(always)]
    fn len(&self) -> usize {
        8
    }

    #[inline(always)]
    fn fault(&self) -> Option<ProtocolFault> {
        None
    }

    #[inline(always)]
    fn put<S: Sink>(&self, sink: &mut S) {
        sink.put_u64(self.0.cast_unsigned());
    }
}

impl<'a> Item<'a> for Signed64 {
    ghost use Rattle.std.specs.Prelude.{ℤ};
    ghost use Rattle.pg_format.specs.Format.Parts.{be_i64};

    ghost Shown = { ℤ };

    ghost shown = { λ it. it.0 };

    ghost format = { be_i64 };

    #[inline(always)]
    fn item_at(body: &'a [u8], at: usize) -> Result<(Signed64, usize), ProtocolFault> {
        Ok((Signed64(i64_at(body, at)?), at + 8))
    }
}

/// A byte that is 0 for no.
#[derive(Clone, Copy)]
pub struct Flag(pub bool);

impl Part for Flag {
    ghost use Rattle.pg_base.specs.Part.{byte};
    ghost use Rattle.pg_format.specs.Replication.{bit};

    ghost part = { λ it. byte (bit it.0) };

    #[inline(always)]
    fn len(&self) -> usize {
        1
    }

    #[inline(always)]
    fn fault(&self) -> Option<ProtocolFault> {
        None
    }

    #[inline(always)]
    fn put<S: Sink>(&self, sink: &mut S) {
        sink.put_u8(if self.0 { 1 } else { 0 });
    }
}

impl<'a> Item<'a> for Flag {
    ghost use Rattle.std.specs.Prelude.{Bool};
    ghost use Rattle.pg_format.specs.Replication.{flag};

    ghost Shown = { Bool };

    ghost shown = { λ it. it.0 };

    ghost format = { flag };

    #[inline(always)]
    fn item_at(body: &'a [u8], at: usize) -> Result<(Flag, usize), ProtocolFault> {
        Ok((Flag(u8_at(body, at)? != 0), at + 1))
    }
}

/// A signed number of two bytes.
#[derive(Clone, Copy)]
pub struct Signed16(pub i16);

impl<'a> Item<'a> for Signed16 {
    ghost use Rattle.std.specs.Prelude.{ℤ};
    ghost use Rattle.pg_format.specs.Format.Parts.{be_i16};

    ghost Shown = { ℤ };

    ghost shown = { λ it. it.0 };

    ghost format = { be_i16 };

    #[inline(always)]
    fn item_at(body: &'a [u8], at: usize) -> Result<(Signed16, usize), ProtocolFault> {
        Ok((Signed16(i16_at(body, at)?), at + 2))
    }
}

/// A signed number of four bytes.
#[derive(Clone, Copy)]
pub struct Signed32(pub i32);

impl Part for Signed32 {
    ghost use Rattle.pg_format.specs.Field.{signed32};

    ghost part = { λ it. signed32 it.0 };

    #[inline(always)]
    fn len(&self) -> usize {
        4
    }

    #[inline(always)]
    fn fault(&self) -> Option<ProtocolFault> {
        None
    }

    #[inline(always)]
    fn put<S: Sink>(&self, sink: &mut S) {
        sink.put_u32(self.0.cast_unsigned());
    }
}

impl<'a> Item<'a> for Signed32 {
    ghost use Rattle.std.specs.Prelude.{ℤ};
    ghost use Rattle.pg_format.specs.Format.Parts.{be_i32};

    ghost Shown = { ℤ };

    ghost shown = { λ it. it.0 };

    ghost format = { be_i32 };

    #[inline(always)]
    fn item_at(body: &'a [u8], at: usize) -> Result<(Signed32, usize), ProtocolFault> {
        Ok((Signed32(i32_at(body, at)?), at + 4))
    }
}

/// Bytes after their length, which is a number of four bytes.
#[derive(Clone, Copy)]
pub struct SizedBytes<'a>(pub &'a [u8]);

impl Part for SizedBytes<'_> {
    ghost use Rattle.pg_base.specs.Part.{bytes};
    ghost use Rattle.pg_format.specs.Logical.{sized};

    ghost part = { λ it. bytes (sized.Writes it.0.now) };

    #[inline(always)]
    fn len(&self) -> usize {
        self.0.len().saturating_add(4)
    }

    #[inline(always)]
    fn fault(&self) -> Option<ProtocolFault> {
        None
    }

    #[inline(always)]
    fn put<S: Sink>(&self, sink: &mut S) {
        sink.put_u32(self.0.len() as u32);
        sink.put_slice(self.0);
    }
}

impl<'a> Item<'a> for SizedBytes<'a> {
    ghost use Rattle.std.specs.Prelude.{ℕ, List};
    ghost use Rattle.pg_format.specs.Logical.{sized};

    ghost Shown = { List ℕ };

    ghost shown = { λ it. it.0.now };

    ghost format = { sized };

    #[inline(always)]
    fn item_at(body: &'a [u8], at: usize) -> Result<(SizedBytes<'a>, usize), ProtocolFault> {
        let length = u32_at(body, at)? as usize;
        let bytes = bytes_at(body, at + 4, length)?;
        Ok((SizedBytes(bytes), at + 4 + length))
    }
}

impl<'a> Item<'a> for Ended<&'a [u8]> {
    ghost use Rattle.std.specs.Prelude.{ℕ, List};
    ghost use Rattle.pg_format.specs.Format.Parts.{until_nul};

    ghost Shown = { List ℕ };

    ghost shown = { λ it. it.0.now };

    ghost format = { until_nul };

    #[inline(always)]
    fn item_at(body: &'a [u8], at: usize) -> Result<(Ended<&'a [u8]>, usize), ProtocolFault> {
        let (text, end) = text_at(body, at)?;
        Ok((Ended(text), end))
    }
}
