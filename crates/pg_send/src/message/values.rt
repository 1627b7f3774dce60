//! Values that may be NULL, each after its length.

ghost use Rattle.std.specs.Prelude.{◌≡◌, ℕ, ◌+◌, ◌≤◌, ◌++◌, List, Option, length, map, option_copied};
ghost use Rattle.pg_base.specs.Cutting.{max_length};
ghost use Rattle.pg_base.specs.Part.{saturated};
ghost use Rattle.pg_send.specs.Values.{texts};
ghost use Rattle.pg_base.specs.Sink.{HasRoom};

use crate::message::counted::too_many;
use pg_base::ProtocolFault;
use pg_base::io::Sink;
use pg_base::io::part::Part;
pub use pg_format::value::{LENGTH_SIZE, NULL_LENGTH, Value};

/// What a caller has in the place of a value that may be NULL.
pub trait AsValue: Copy {
    ghost value: { Self → Option (List ℕ) };

    fn as_value(&self) -> Option<&[u8]>
        ensures { option_copied result ≡ value self.now };
}

impl AsValue for Option<&[u8]> {
    ghost value = { λ value. option_copied value };

    #[inline(always)]
    fn as_value(&self) -> Option<&[u8]> {
        *self
    }
}

/// Values, each after its length, after their count. More than 65535 are refused with `BadParams`.
#[derive(Clone, Copy)]
pub struct CountedValues<'a, V>(pub &'a [V]);

impl<V: AsValue> Part for CountedValues<'_, V> {
    ghost use Rattle.pg_send.specs.Values.{values};

    ghost part = { λ it. values (map V.value it.0.now) };

    #[inline(always)]
    fn len(&self) -> usize {
        values_len(self.0).saturating_add(2)
    }

    #[inline(always)]
    fn fault(&self) -> Option<ProtocolFault> {
        too_many(self.0.len(), ProtocolFault::BadParams)
    }

    #[inline(always)]
    fn put<S: Sink>(&self, sink: &mut S) {
        sink.put_u16(self.0.len() as u16);
        put_values(self.0, sink);
    }
}

// The length of the values and of the four bytes before each, in bytes; it saturates.
fn values_len<V: AsValue>(values: &[V]) -> usize
    ensures { result ≡ saturated (length (texts V.value values.now)) }
{
    let mut len: usize = 0;
    for value in values {
        len = len.saturating_add(Value(value.as_value()).len());
    }
    len
}

// Adds the values, each after its length, in room that is there.
#[inline(always)]
fn put_values<V: AsValue, S: Sink>(values: &[V], sink: &mut S)
    requires small { length (texts V.value values.now) ≤ max_length }
    requires room { HasRoom (S.capacity sink.old) (S.written sink.old) (texts V.value values.now) }
    ensures written { S.written sink.new ≡ S.written sink.old ++ texts V.value values.now }
    ensures capacity { S.capacity sink.old ≤ S.capacity sink.new }
    ensures loan { S.loan sink.new ≡ S.loan sink.old }
{
    for value in values {
        Value(value.as_value()).put(sink);
    }
}
