//! The parts of a COPY that go both ways.

ghost use Rattle.std.specs.Prelude.{◌≡◌, ℕ, List};

use bytes::Bytes;

/// What has bytes to borrow.
pub trait LendBytes: Drop {
    /// The bytes.
    ghost bytes: { Self → List ℕ };

    /// Borrows the bytes.
    fn bytes(&self) -> &[u8]
        ensures { result.now ≡ bytes self.now };
}

impl LendBytes for Vec<u8> {
    ghost bytes = { λ owner. owner.items };

    fn bytes(&self) -> &[u8] {
        self.as_slice()
    }
}

impl LendBytes for Bytes {
    ghost bytes = { λ owner. owner };

    fn bytes(&self) -> &[u8] {
        Bytes::as_slice(self)
    }
}

impl LendBytes for &[u8] {
    ghost bytes = { λ slice. slice.now };

    fn bytes(&self) -> &[u8] {
        self
    }
}

/// A part of the stream of a COPY, in either direction. Where it goes to the server its bytes are
/// borrowed. Documentation: "Message Formats", CopyData (F & B).
#[derive(Drop)]
pub struct CopyData<B>(pub B);

/// The end of the stream of a COPY, in either direction. Documentation: "Message Formats", CopyDone
/// (F & B).
#[derive(Drop)]
pub struct CopyDone;
