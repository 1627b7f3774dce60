//! A value that may be NULL, after its length.

ghost use Rattle.std.specs.Prelude.{◌≡◌, ◌+◌, ◌≤◌, ◌++◌, length, option_copied};
ghost use Rattle.pg_format.specs.Format.Nullable.{value};
ghost use Rattle.pg_base.specs.Sink.{HasRoom};

use pg_base::ProtocolFault;
use pg_base::io::Sink;
use pg_base::io::part::Part;

/// The length that says NULL: -1.
pub const NULL_LENGTH: u32 = u32::MAX;

/// The bytes of a length.
pub const LENGTH_SIZE: usize = 4;

/// A value after its length.
#[derive(Clone, Copy)]
pub struct Value<'a>(pub Option<&'a [u8]>);

impl Part for Value<'_> {
    ghost use Rattle.pg_base.specs.Part.{bytes};

    ghost part = { λ it. bytes (value.Writes (option_copied it.0)) };

    #[inline(always)]
    fn len(&self) -> usize {
        match self.0 {
            Some(value) => sized_len(value),
            None => LENGTH_SIZE,
        }
    }

    #[inline(always)]
    fn fault(&self) -> Option<ProtocolFault> {
        None
    }

    #[inline(always)]
    fn put<S: Sink>(&self, sink: &mut S) {
        match self.0 {
            Some(value) => {
                sink.put_u32(value.len() as u32);
                put_number_or_more(value, sink);
            }
            None => sink.put_u32(NULL_LENGTH),
        }
    }
}

// The length of bytes after their own length, a number that no slice is too long for.
#[inline(always)]
fn sized_len(bytes: &[u8]) -> usize
    ensures { result ≡ length bytes.now + 4 }
{
    bytes.len() + LENGTH_SIZE
}

// Adds bytes, in room that is there. A number is as long as an array, which is copied without a call.
#[inline(always)]
fn put_number_or_more<S: Sink>(bytes: &[u8], sink: &mut S)
    requires { HasRoom (S.capacity sink.old) (S.written sink.old) bytes.now }
    ensures written { S.written sink.new ≡ S.written sink.old ++ bytes.now }
    ensures capacity { S.capacity sink.old ≤ S.capacity sink.new }
    ensures loan { S.loan sink.new ≡ S.loan sink.old }
{
    if let Ok(number) = <[u8; 8]>::try_from(bytes) {
        sink.put_number(&number);
    } else if let Ok(number) = <[u8; 4]>::try_from(bytes) {
        sink.put_number(&number);
    } else {
        sink.put_slice(bytes);
    }
}
