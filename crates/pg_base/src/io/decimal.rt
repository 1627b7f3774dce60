//! The decimal digits of a number, written at the end of a sink.

ghost use Rattle.std.specs.Prelude.{◌≡◌, ◌+◌, ◌<◌, ◌≤◌, ◌++◌, length, decimal};
ghost use Rattle.pg_base.specs.Numbers.{two_digits};
ghost use Rattle.pg_base.specs.Sink.{HasRoom};

use crate::io::Sink;
use itoa::Buffer;

/// Adds the digits of a number, in room that is there. Most numbers are small, and need no buffer.
#[inline(always)]
pub fn put_decimal<S: Sink>(number: u32, sink: &mut S)
    requires { HasRoom (S.capacity sink.old) (S.written sink.old) (decimal number) }
    ensures written { S.written sink.new ≡ S.written sink.old ++ decimal number }
    ensures capacity { S.capacity sink.old ≤ S.capacity sink.new }
    ensures loan { S.loan sink.new ≡ S.loan sink.old }
{
    if number < 100 {
        put_short(number, sink);
    } else if number < 10_000 {
        put_short(number / 100, sink);
        put_pair(number % 100, sink);
    } else {
        put_digits(number, sink);
    }
}

// The one or two digits of a number below 100.
#[inline(always)]
fn put_short<S: Sink>(number: u32, sink: &mut S)
    requires number { number < 100 }
    requires room { HasRoom (S.capacity sink.old) (S.written sink.old) (decimal number) }
    ensures written { S.written sink.new ≡ S.written sink.old ++ decimal number }
    ensures capacity { S.capacity sink.old ≤ S.capacity sink.new }
    ensures loan { S.loan sink.new ≡ S.loan sink.old }
{
    if number < 10 {
        sink.put_u8(b'0' + number as u8);
    } else {
        put_pair(number, sink);
    }
}

// Two digits, also of a number below 10.
#[inline(always)]
fn put_pair<S: Sink>(number: u32, sink: &mut S)
    requires number { number < 100 }
    requires room { length (S.written sink.old) + 2 ≤ S.capacity sink.old }
    ensures written { S.written sink.new ≡ S.written sink.old ++ two_digits number }
    ensures capacity { S.capacity sink.old ≤ S.capacity sink.new }
    ensures loan { S.loan sink.new ≡ S.loan sink.old }
{
    sink.put_u8(b'0' + (number / 10) as u8);
    sink.put_u8(b'0' + (number % 10) as u8);
}

// The digits of any number.
#[inline(never)]
fn put_digits<S: Sink>(number: u32, sink: &mut S)
    requires { HasRoom (S.capacity sink.old) (S.written sink.old) (decimal number) }
    ensures written { S.written sink.new ≡ S.written sink.old ++ decimal number }
    ensures capacity { S.capacity sink.old ≤ S.capacity sink.new }
    ensures loan { S.loan sink.new ≡ S.loan sink.old }
{
    let mut digits = Buffer::new();
    let digits = digits.format(number);
    // One by one, since a copy of several waits for digits that were just written.
    for digit in digits.as_bytes() {
        sink.put_u8(*digit);
    }
}
