//! Which letters the cases of enums have, and when two values are equal.

ghost use Rattle.std.specs.Prelude.{◌≡◌, Ok};
ghost use Rattle.pg_format.specs.Messages.{status_letter};
ghost use Rattle.pg_receive.specs.ReadyForQuery.{shown_status};
ghost use Rattle.pg_base.specs.Derived.{IsEqualByValue};

use crate::message::{BackendKeyData, ReadyForQuery, TransactionStatus};
use std::alloc::AllocError;

/// As a number a status is its letter: `I`, `T` or `E`.
pub fn letter_of_status(status: TransactionStatus) -> u8
    ensures { result ≡ status_letter (shown_status status) }
{
    status as u8
}

/// Statuses and keys are equal where they are the same.
pub fn values_are_equal_where_they_are_the_same()
    ensures statuses { IsEqualByValue ⟦<TransactionStatus as PartialEq>⟧.eq }
    ensures ready { IsEqualByValue ⟦<ReadyForQuery as PartialEq>⟧.eq }
    ensures keys { IsEqualByValue ⟦<BackendKeyData as PartialEq>⟧.eq }
{}

/// A clone of a status is that status.
pub fn clone_of_status(status: &TransactionStatus) -> Result<TransactionStatus, AllocError>
    ensures { result ≡ Ok status.now }
{
    status.clone()
}

/// A clone of a message that the server is ready is that message.
pub fn clone_of_ready(ready: &ReadyForQuery) -> Result<ReadyForQuery, AllocError>
    ensures { result ≡ Ok ready.now }
{
    ready.clone()
}

/// A clone of a key is that key.
pub fn clone_of_key(key: &BackendKeyData) -> Result<BackendKeyData, AllocError>
    ensures { result ≡ Ok key.now }
{
    key.clone()
}
