//! Places in the bytes that a caller passed.

ghost use Rattle.std.specs.Prelude.{◌≡◌};
ghost use Rattle.pg_c.specs.Place.{span_of};

/// A place in the bytes that were passed: `len` of them from `at` on.
#[repr(C)]
#[derive(Clone, Copy)]
pub struct PgmsgSpan {
    pub at: usize,
    pub len: usize,
}

/// The place of what a message hasn't.
pub(crate) const NOWHERE: PgmsgSpan = PgmsgSpan { at: 0, len: 0 };

/// A list in the bytes that were passed: `count` items, of which the first is at `at`.
#[repr(C)]
#[derive(Clone, Copy)]
pub struct PgmsgList {
    pub at: usize,
    pub count: usize,
}

/// The place of bytes that stand at an offset.
#[inline(always)]
pub(crate) fn span(at: usize, bytes: &[u8]) -> PgmsgSpan
    ensures { result ≡ span_of at bytes.now }
{
    PgmsgSpan {
        at,
        len: bytes.len(),
    }
}
