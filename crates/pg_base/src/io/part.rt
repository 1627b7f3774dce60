//! The parts of a body, one after the other.
//!
//! A part says by `part` what it is. That parts have room one after the other, and that together they
//! are the body, is proved once, for [`Then`].

ghost use Rattle.std.specs.Prelude.{◌≡◌, ◌+◌, ◌≤◌, ◌++◌, length, None};
ghost use Rattle.pg_base.specs.Cutting.{max_length};
ghost use Rattle.pg_base.specs.Part.{PartLaw, saturated};
ghost use Rattle.pg_base.specs.Sink.{HasRoom};

use crate::error::ProtocolFault;
use crate::io::{Encodable, Sink};

/// A part of a body.
pub trait Part: Copy {
    /// All that is said of it.
    ghost part: { Self → PartLaw };

    /// Its length in bytes; sums saturate.
    fn len(&self) -> usize
        ensures { result ≡ saturated (length (part self.now).text) };

    /// The first limit on counts that it breaks.
    fn fault(&self) -> Option<ProtocolFault>
        ensures { result ≡ (part self.now).fault };

    /// Adds it, in room that is there.
    fn put<S: Sink>(&self, sink: &mut S)
        requires counted { (part self.now).fault ≡ None }
        requires small { length (part self.now).text ≤ max_length }
        requires room { HasRoom (S.capacity sink.old) (S.written sink.old) (part self.now).text }
        ensures written { S.written sink.new ≡ S.written sink.old ++ (part self.now).text }
        ensures capacity { S.capacity sink.old ≤ S.capacity sink.new }
        ensures loan { S.loan sink.new ≡ S.loan sink.old }
        ensures range { (part self.now).IsInRange };
}

/// A part, and another after it.
#[derive(Clone, Copy)]
pub struct Then<A, B>(pub A, pub B);

impl<A: Part, B: Part> Part for Then<A, B> {
    ghost use Rattle.pg_base.specs.Part.{both};

    ghost part = { λ parts. both (A.part parts.0) (B.part parts.1) };

    #[inline(always)]
    fn len(&self) -> usize {
        self.0.len().saturating_add(self.1.len())
    }

    #[inline(always)]
    fn fault(&self) -> Option<ProtocolFault> {
        self.0.fault().or(self.1.fault())
    }

    #[inline(always)]
    fn put<S: Sink>(&self, sink: &mut S) {
        self.0.put(sink);
        self.1.put(sink);
    }
}

impl<A: Encodable, B: Encodable> Encodable for Then<A, B> {
    ghost text = { λ both. A.text both.0 ++ B.text both.1 };

    ghost can = { λ both. A.can both.0 × B.can both.1 };

    ghost IsInRange = { λ both. A.IsInRange both.0 × B.IsInRange both.1 };

    #[inline(always)]
    fn put<S: Sink>(&self, sink: &mut S) {
        self.0.put(sink);
        self.1.put(sink);
    }
}

/// A part, and another after it whose limit counts first.
#[derive(Clone, Copy)]
pub struct ThenFirst<A, B>(pub A, pub B);

impl<A: Part, B: Part> Part for ThenFirst<A, B> {
    ghost use Rattle.pg_base.specs.Part.{both_from_last};

    ghost part = { λ parts. both_from_last (A.part parts.0) (B.part parts.1) };

    #[inline(always)]
    fn len(&self) -> usize {
        self.0.len().saturating_add(self.1.len())
    }

    #[inline(always)]
    fn fault(&self) -> Option<ProtocolFault> {
        self.1.fault().or(self.0.fault())
    }

    #[inline(always)]
    fn put<S: Sink>(&self, sink: &mut S) {
        self.0.put(sink);
        self.1.put(sink);
    }
}

/// One part or another.
#[derive(Clone, Copy)]
pub enum Either<A, B> {
    First(A),
    Second(B),
}

impl<A: Part, B: Part> Part for Either<A, B> {
    ghost use Rattle.pg_base.specs.Either.{either};

    ghost part = { λ it. either A.part B.part it };

    #[inline(always)]
    fn len(&self) -> usize {
        match self {
            Either::First(part) => part.len(),
            Either::Second(part) => part.len(),
        }
    }

    #[inline(always)]
    fn fault(&self) -> Option<ProtocolFault> {
        match self {
            Either::First(part) => part.fault(),
            Either::Second(part) => part.fault(),
        }
    }

    #[inline(always)]
    fn put<S: Sink>(&self, sink: &mut S) {
        match self {
            Either::First(part) => part.put(sink),
            Either::Second(part) => part.put(sink),
        }
    }
}

/// A byte.
#[derive(Clone, Copy)]
pub struct Byte(pub u8);

impl Part for Byte {
    ghost use Rattle.pg_base.specs.Part.{byte};

    ghost part = { λ it. byte it.0 };

    #[inline(always)]
    fn len(&self) -> usize {
        1
    }

    #[inline(always)]
    fn fault(&self) -> Option<ProtocolFault> {
        None
    }

    #[inline(always)]
    fn put<S: Sink>(&self, sink: &mut S) {
        sink.put_u8(self.0);
    }
}

/// A number of two bytes.
#[derive(Clone, Copy)]
pub struct Number16(pub u16);

impl Part for Number16 {
    ghost use Rattle.pg_base.specs.Part.{number16};

    ghost part = { λ it. number16 it.0 };

    #[inline(always)]
    fn len(&self) -> usize {
        2
    }

    #[inline(always)]
    fn fault(&self) -> Option<ProtocolFault> {
        None
    }

    #[inline(always)]
    fn put<S: Sink>(&self, sink: &mut S) {
        sink.put_u16(self.0);
    }
}

/// A number of four bytes.
#[derive(Clone, Copy)]
pub struct Number32(pub u32);

impl Part for Number32 {
    ghost use Rattle.pg_base.specs.Part.{number32};

    ghost part = { λ it. number32 it.0 };

    #[inline(always)]
    fn len(&self) -> usize {
        4
    }

    #[inline(always)]
    fn fault(&self) -> Option<ProtocolFault> {
        None
    }

    #[inline(always)]
    fn put<S: Sink>(&self, sink: &mut S) {
        sink.put_u32(self.0);
    }
}

/// A number of eight bytes.
#[derive(Clone, Copy)]
pub struct Number64(pub u64);

impl Part for Number64 {
    ghost use Rattle.pg_base.specs.Part.{number64};

    ghost part = { λ it. number64 it.0 };

    #[inline(always)]
    fn len(&self) -> usize {
        8
    }

    #[inline(always)]
    fn fault(&self) -> Option<ProtocolFault> {
        None
    }

    #[inline(always)]
    fn put<S: Sink>(&self, sink: &mut S) {
        sink.put_u64(self.0);
    }
}

/// Bytes as they are.
#[derive(Clone, Copy)]
pub struct Slice<'a>(pub &'a [u8]);

impl Part for Slice<'_> {
    ghost use Rattle.pg_base.specs.Part.{bytes};

    ghost part = { λ it. bytes it.0.now };

    #[inline(always)]
    fn len(&self) -> usize {
        self.0.len()
    }

    #[inline(always)]
    fn fault(&self) -> Option<ProtocolFault> {
        None
    }

    #[inline(always)]
    fn put<S: Sink>(&self, sink: &mut S) {
        sink.put_slice(self.0);
    }
}

/// No bytes.
#[derive(Clone, Copy)]
pub struct NoBytes;

impl Part for NoBytes {
    ghost use Rattle.std.specs.Prelude.{[]};
    ghost use Rattle.pg_base.specs.Part.{bytes};

    ghost part = { λ _. bytes [] };

    #[inline(always)]
    fn len(&self) -> usize {
        0
    }

    #[inline(always)]
    fn fault(&self) -> Option<ProtocolFault> {
        None
    }

    #[inline(always)]
    fn put<S: Sink>(&self, _sink: &mut S) {}
}
