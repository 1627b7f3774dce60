//! What a message is written into: a buffer with room, or bytes of the caller.

ghost use Rattle.std.specs.Prelude.{◌≡◌, ℕ, ◌+◌, ◌^◌, ◌<◌, ◌≤◌, List, [], ◌∷◌, ◌++◌, length, take, Option, None, Some, vec_capacity};
ghost use Rattle.std.specs.Borrow.{GName};
ghost use Rattle.pg_base.specs.Cutting.{max_length};
ghost use Rattle.pg_base.specs.Numbers.{be16, be32, be64};
ghost use Rattle.pg_base.specs.Sink.{IsGiven, HasRoom};
ghost use Rattle.pg_base.specs.Ended.{ended};

use crate::io::copy_bytes::{copy_bytes, copy_number};

/// Takes bytes at the end of what is written, in room that is there.
pub trait Sink {
    /// What is written so far.
    ghost written: { Self → List ℕ };

    /// How long that may become.
    ghost capacity: { Self → ℕ };

    /// The borrow that it writes through and the length of what is borrowed, where it is one.
    ghost loan: { Self → Option (GName × ℕ) };

    /// Adds a byte.
    fn put_u8(&mut self, byte: u8)
        requires { length (written self.old) + 1 ≤ capacity self.old }
        ensures written { written self.new ≡ written self.old ++ byte ∷ [] }
        ensures capacity { capacity self.old ≤ capacity self.new }
        ensures loan { loan self.new ≡ loan self.old };

    /// Adds some bytes.
    fn put_slice(&mut self, bytes: &[u8])
        requires { HasRoom (capacity self.old) (written self.old) bytes.now }
        ensures written { written self.new ≡ written self.old ++ bytes.now }
        ensures capacity { capacity self.old ≤ capacity self.new }
        ensures loan { loan self.new ≡ loan self.old };

    /// Adds a number of four or eight bytes, or a tag with its length: where the compiler knows which, without a call.
    fn put_number(&mut self, bytes: &[u8])
        requires { HasRoom (capacity self.old) (written self.old) bytes.now }
        ensures written { written self.new ≡ written self.old ++ bytes.now }
        ensures capacity { capacity self.old ≤ capacity self.new }
        ensures loan { loan self.new ≡ loan self.old };

    /// Adds a number as two bytes, highest byte first.
    #[inline(always)]
    final fn put_u16(&mut self, number: u16)
        requires { length (written self.old) + 2 ≤ capacity self.old }
        ensures written { written self.new ≡ written self.old ++ be16 number }
        ensures capacity { capacity self.old ≤ capacity self.new }
        ensures loan { loan self.new ≡ loan self.old }
        ensures range { number < 2 ^ 16 }
    {
        let [high, low] = number.to_be_bytes();
        self.put_u8(high);
        self.put_u8(low);
    }

    /// Adds a number as four bytes, highest byte first.
    #[inline(always)]
    final fn put_u32(&mut self, number: u32)
        requires { length (written self.old) + 4 ≤ capacity self.old }
        ensures written { written self.new ≡ written self.old ++ be32 number }
        ensures capacity { capacity self.old ≤ capacity self.new }
        ensures loan { loan self.new ≡ loan self.old }
        ensures range { number < 2 ^ 32 }
    {
        let [highest, higher, lower, lowest] = number.to_be_bytes();
        self.put_u8(highest);
        self.put_u8(higher);
        self.put_u8(lower);
        self.put_u8(lowest);
    }

    /// Adds a number as eight bytes, highest byte first.
    #[inline(always)]
    final fn put_u64(&mut self, number: u64)
        requires { length (written self.old) + 8 ≤ capacity self.old }
        ensures written { written self.new ≡ written self.old ++ be64 number }
        ensures capacity { capacity self.old ≤ capacity self.new }
        ensures loan { loan self.new ≡ loan self.old }
        ensures range { number < 2 ^ 64 }
    {
        self.put_number(&number.to_be_bytes());
    }

    /// Adds a tag, and the length field of a body of `len` bytes. Both are written at once.
    #[inline(always)]
    final fn put_head(&mut self, tag: u8, len: usize)
        requires small { len + 4 ≤ max_length }
        requires room { length (written self.old) + 5 ≤ capacity self.old }
        ensures written { written self.new ≡ written self.old ++ tag ∷ be32 (len + 4) }
        ensures capacity { capacity self.old ≤ capacity self.new }
        ensures loan { loan self.new ≡ loan self.old }
    {
        // The number is one store, not four.
        let mut head = [tag, 0, 0, 0, 0];
        head[1..].copy_from_slice(&(len as u32 + 4).to_be_bytes());
        self.put_number(&head);
    }

    /// Adds a text and a NUL.
    #[inline(always)]
    final fn put_text(&mut self, text: &[u8])
        requires { HasRoom (capacity self.old) (written self.old) (ended text.now) }
        ensures written { written self.new ≡ written self.old ++ ended text.now }
        ensures capacity { capacity self.old ≤ capacity self.new }
        ensures loan { loan self.new ≡ loan self.old }
    {
        self.put_slice(text);
        self.put_u8(0);
    }
}

impl Sink for Vec<u8> {
    ghost written = { λ buf. buf.items };

    ghost capacity = { λ buf. vec_capacity buf };

    ghost loan = { λ _. None };

    #[inline(always)]
    fn put_u8(&mut self, byte: u8) {
        self.push_reserved(byte);
    }

    #[inline(always)]
    fn put_slice(&mut self, bytes: &[u8]) {
        // The room is there. Said here, it spares the code that would ask for more.
        if bytes.len() <= self.capacity() - self.len() {
            let added = self.extend_from_slice(bytes);
            prove!(added.is_ok());
        }
    }

    #[inline(always)]
    fn put_number(&mut self, bytes: &[u8]) {
        self.put_slice(bytes);
    }
}

/// A place in bytes of the caller, after what is written of them.
#[derive(Drop)]
pub struct Cursor<'a> {
    out: &'a mut [u8],
    at: usize,
    ghost within: { at ≤ length out.now },
}

impl<'a> Cursor<'a> {
    /// The front of the bytes.
    #[inline(always)]
    pub fn new(out: &'a mut [u8]) -> Cursor<'a>
        ensures same_reference { result.out.ghost_name ≡ out.entry.ghost_name }
        ensures bytes { result.out.now ≡ out.old }
        ensures at { result.at ≡ 0 }
    {
        Cursor { out, at: 0 }
    }
}

impl Sink for Cursor<'_> {
    ghost written = { λ cursor. take cursor.at cursor.out.now };

    ghost capacity = { λ cursor. length cursor.out.now };

    ghost loan = { λ cursor. Some (cursor.out.ghost_name, length cursor.out.now) };

    #[inline(always)]
    fn put_u8(&mut self, byte: u8) {
        self.out[self.at] = byte;
        self.at += 1;
    }

    #[inline(always)]
    fn put_slice(&mut self, bytes: &[u8]) {
        let end = self.at + bytes.len();
        copy_bytes(&mut self.out[self.at..end], bytes);
        self.at = end;
    }

    #[inline(always)]
    fn put_number(&mut self, bytes: &[u8]) {
        let end = self.at + bytes.len();
        copy_number(&mut self.out[self.at..end], bytes);
        self.at = end;
    }
}

/// What is written as a whole: a message, or a name with its NUL.
pub trait Encodable {
    /// Its bytes.
    ghost text: { Self → List ℕ };

    /// When they may be written.
    ghost can: { Self → Type 0 };

    /// That its numbers are in the ranges of their types.
    ghost IsInRange: { Self → Type 0 };

    /// Adds them, in room that is there.
    fn put<S: Sink>(&self, sink: &mut S)
        requires can { can self.now }
        requires room { HasRoom (S.capacity sink.old) (S.written sink.old) (text self.now) }
        ensures written { S.written sink.new ≡ S.written sink.old ++ text self.now }
        ensures capacity { S.capacity sink.old ≤ S.capacity sink.new }
        ensures loan { S.loan sink.new ≡ S.loan sink.old }
        ensures range { IsInRange self.now };
}

/// Writes a text of `len` bytes at the front of `out` where it is that long; else `out` stays.
#[inline(always)]
pub fn write_text<T: Encodable>(text: &T, len: usize, out: &mut [u8])
    requires can { T.can text.now }
    requires len { len ≡ length (T.text text.now) }
    ensures given { IsGiven (T.text text.now) out.old out.new }
    ensures range { len ≤ length out.old → T.IsInRange text.now }
{
    if len <= out.len() {
        fill(text, &mut out[..len]);
    }
}

// Writes a text over bytes of just its length.
#[inline(always)]
fn fill<T: Encodable>(text: &T, out: &mut [u8])
    requires can { T.can text.now }
    requires room { length out.old ≡ length (T.text text.now) }
    ensures written { out.new ≡ T.text text.now }
    ensures range { T.IsInRange text.now }
{
    let mut cursor = Cursor::new(out);
    text.put(&mut cursor);
}
