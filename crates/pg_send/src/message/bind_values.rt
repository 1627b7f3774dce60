//! The values of a Bind's parameters, collected one by one.

ghost use Rattle.std.specs.Prelude.{◌≡◌, ◌+◌, ◌<◌, ◌≤◌, ◌↔◌, ◌⊎◌, [], length, Some, None, IsTrue, IfOk, OnOk, OnErr, IsErrOf, IsOkUnless};
ghost use Rattle.pg_base.specs.declared.error.Error.TheVariants.{OutOfMemory};
ghost use Rattle.pg_base.specs.Encode.{IsAnswer};
ghost use Rattle.pg_base.specs.Reading.{Values};
ghost use Rattle.pg_send.specs.BindValues.{no_values, HasOneMore, AreShort};
ghost use Rattle.pg_base.specs.Tagged.{first_fault};

use pg_base::io::{MAX_BODY, Sink};
use pg_base::{Error, ProtocolFault};
use pg_format::value::{LENGTH_SIZE, NULL_LENGTH};
use std::alloc::Global;
use std::marker::Model;

// The most values that a Bind can count.
const MAX_VALUES: u16 = u16::MAX;

/// The values of a [`Bind`](crate::message::Bind)'s parameters in the order of the parameters: what
/// to send as `params`, and how many they are, `num_params`. At most 65535.
///
/// A value takes four bytes and its own, a NULL four. Memory is asked for only where they are more
/// than the room that is left: see [`BindValues::reserve`].
///
/// A Bind that is made of them makes the round trip: a strict run doesn't refuse it for its values.
#[derive(Drop)]
pub struct BindValues {
    count: u16,
    bytes: Vec<u8>,
}

impl Model for BindValues {
    ghost use Rattle.std.specs.Prelude.{[]};
    ghost use Rattle.pg_base.specs.Reading.{Values};
    ghost use Rattle.pg_send.specs.BindValues.{HeldValues, values_held};

    ghost Value = { HeldValues };

    ghost view = { λ held. values_held held.count held.bytes };

    ghost invariant = { λ held. Values held.count held.bytes.items [] };
}

impl BindValues {
    /// No values. Takes no memory.
    pub fn new(alloc: Global) -> Self
        ensures { result ≡ no_values 0 }
    {
        BindValues {
            count: 0,
            bytes: Vec::new(alloc),
        }
    }

    /// No values, with room for `capacity` bytes. Refused with `OutOfMemory` alone.
    pub fn with_capacity(alloc: Global, capacity: usize) -> Result<Self, Error>
        ensures ok { IfOk result (λ values. values ≡ no_values capacity) }
        ensures memory { IsOkUnless result OutOfMemory }
        ensures room { OnErr result (0 < capacity) }
    {
        let bytes = Vec::with_capacity(alloc, capacity)?;
        Ok(BindValues { count: 0, bytes })
    }

    /// How many values there are.
    pub fn count(&self) -> u16
        ensures { result ≡ self.now.count }
    {
        self.count
    }

    /// The values as a Bind sends them, each after its length.
    pub fn bytes(&self) -> &[u8]
        ensures bytes { result.now ≡ self.now.bytes }
        ensures values { Values self.now.count result.now [] }
    {
        self.bytes.as_slice()
    }

    /// Whether there are as many values as a Bind can count.
    pub fn is_full(&self) -> bool
        ensures full { IsTrue result ↔ (self.now.count ≡ 65535) }
        ensures room { IsTrue result ⊎ (self.now.count < 65535) }
    {
        self.count == MAX_VALUES
    }

    /// How many bytes there can be before memory is asked for.
    pub fn capacity(&self) -> usize
        ensures capacity { result ≡ self.now.capacity }
        ensures filled { length self.now.bytes ≤ result }
    {
        self.bytes.capacity()
    }

    /// Makes room for at least `additional` more bytes: as long as values fit in it, a push isn't
    /// `OutOfMemory`. Refused with `OutOfMemory` alone, only where that room wasn't there; all then
    /// stays as it was.
    pub fn reserve(&mut self, additional: usize) -> Result<(), Error>
        ensures count { self.new.count ≡ self.old.count }
        ensures bytes { self.new.bytes ≡ self.old.bytes }
        ensures ok { OnOk result (length self.new.bytes + additional ≤ self.new.capacity) }
        ensures err { OnErr result (self.new ≡ self.old) }
        ensures memory { IsOkUnless result OutOfMemory }
        ensures room { OnErr result (AreShort self.old additional) }
        ensures capacity { self.old.capacity ≤ self.new.capacity }
    {
        self.bytes.reserve(additional)?;
        Ok(())
    }

    /// Adds a value in the format that the Bind says, unless [`BindValues::is_full`]. Refused with
    /// `MessageTooLong`, of the value and the four bytes before it, where it is longer than the
    /// greatest body, and with `OutOfMemory`, only where the room for these bytes wasn't there; all
    /// then stays as it was.
    pub fn push(&mut self, value: &[u8]) -> Result<(), Error>
        requires { self.old.count < 65535 }
        ensures ok { OnOk result (HasOneMore (Some value.now) self.old self.new) }
        ensures err { OnErr result (self.new ≡ self.old) }
        ensures answer { IsAnswer (first_fault None (length value.now)) result }
        ensures room { IsErrOf result OutOfMemory → AreShort self.old (length value.now + 4) }
        ensures capacity { self.old.capacity ≤ self.new.capacity }
    {
        if value.len() > MAX_BODY {
            return Err(ProtocolFault::MessageTooLong(value.len().saturating_add(4)).into());
        }
        self.bytes.reserve(LENGTH_SIZE + value.len())?;
        self.bytes.put_u32(value.len() as u32);
        self.bytes.put_slice(value);
        self.count += 1;
        Ok(())
    }

    /// Adds a NULL, unless [`BindValues::is_full`]. Refused with `OutOfMemory` alone, only where the
    /// room for four bytes wasn't there; all then stays as it was.
    pub fn push_null(&mut self) -> Result<(), Error>
        requires { self.old.count < 65535 }
        ensures ok { OnOk result (HasOneMore None self.old self.new) }
        ensures err { OnErr result (self.new ≡ self.old) }
        ensures memory { IsOkUnless result OutOfMemory }
        ensures room { OnErr result (AreShort self.old 4) }
        ensures capacity { self.old.capacity ≤ self.new.capacity }
    {
        self.bytes.reserve(LENGTH_SIZE)?;
        self.bytes.put_u32(NULL_LENGTH);
        self.count += 1;
        Ok(())
    }
}
