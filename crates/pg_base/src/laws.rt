//! Laws of this crate: what holds of its types and constants beyond single calls.
//!
//! A function without a body states a law, and is there to be proved and not to be called. One with
//! a body pins a number that code has by a cast.

ghost use Rattle.std.specs.Prelude.{◌≡◌, ◌==◌, ℕ, List};
ghost use Rattle.pg_base.specs.declared.error.Error.{Error};
ghost use Rattle.pg_base.specs.declared.error.ErrorKind.{ErrorKind};
ghost use Rattle.pg_base.specs.declared.error.ProtocolFault.{ProtocolFault};
ghost use Rattle.pg_base.specs.declared.format.BackendMessageFormat.{BackendMessageFormat};
ghost use Rattle.pg_base.specs.declared.format.FrontendMessageFormat.{FrontendMessageFormat};
ghost use Rattle.pg_base.specs.declared.io.Oid.{Oid};
ghost use Rattle.pg_base.specs.declared.io.PgValueFormat.{PgValueFormat};
ghost use Rattle.pg_base.specs.Format.{frontend_tag, backend_number, format_code};
ghost use Rattle.pg_base.specs.Id.{AreDistinctUpTo, name, max_id};
ghost use Rattle.pg_base.specs.Derived.{IsEqualByValue, IsClonedByValue, IsOrderedBy};

use crate::error::{Error, ErrorKind, ProtocolFault};
use crate::format::{BackendMessageFormat, FrontendMessageFormat};
use crate::io::{MAX_BODY, MAX_LENGTH, Oid, PgValueFormat, PortalId, StatementId};

/// Faults, errors and kinds of error are equal where they are the same.
pub fn errors_are_equal_by_value()
    ensures faults { IsEqualByValue ⟦<ProtocolFault as PartialEq>⟧.eq }
    ensures errors { IsEqualByValue ⟦<Error as PartialEq>⟧.eq }
    ensures kinds { IsEqualByValue ⟦<ErrorKind as PartialEq>⟧.eq }
{}

/// The id of a type that is none: 0, as the catalog has it.
pub fn default_type() -> Oid
    ensures { result.0 ≡ 0 }
{
    Oid::default()
}

/// Types and formats of values, and kinds of message, are equal where they are the same.
pub fn formats_are_equal_by_value()
    ensures types { IsEqualByValue ⟦<Oid as PartialEq>⟧.eq }
    ensures values { IsEqualByValue ⟦<PgValueFormat as PartialEq>⟧.eq }
    ensures frontend { IsEqualByValue ⟦<FrontendMessageFormat as PartialEq>⟧.eq }
    ensures backend { IsEqualByValue ⟦<BackendMessageFormat as PartialEq>⟧.eq }
{}

/// The order of both kinds of message formats is that of their numbers.
pub fn formats_are_ordered_by_number()
    ensures frontend { IsOrderedBy frontend_tag ⟦<FrontendMessageFormat as Ord>⟧.cmp }
    ensures backend { IsOrderedBy backend_number ⟦<BackendMessageFormat as Ord>⟧.cmp }
{}

/// The number of a kind of message to the server is its tag.
pub fn number_of_frontend_format(format: FrontendMessageFormat) -> u8
    ensures { result ≡ frontend_tag format }
{
    format as u8
}

/// The number of a kind of message from the server is its place in the list of kinds.
pub fn number_of_backend_format(format: BackendMessageFormat) -> u8
    ensures { result ≡ backend_number format }
{
    format as u8
}

/// The number of a format of values is its format code.
pub fn number_of_value_format(format: PgValueFormat) -> u16
    ensures { result ≡ format_code format }
{
    format as u16
}

/// The greatest lengths are those of a signed field of four bytes.
pub fn greatest_lengths_are_the_standards()
    ensures max_length { MAX_LENGTH ≡ 2147483647 }
    ensures max_body { MAX_BODY ≡ 2147483643 }
{}

/// The unnamed statement and the first named one.
pub fn first_statements() -> (StatementId, StatementId)
    ensures unnamed { result.0 ≡ 0 }
    ensures named { result.1 ≡ 1 }
{
    (StatementId::UNNAMED, StatementId::NAMED_START)
}

/// The unnamed portal and the first named one.
pub fn first_portals() -> (PortalId, PortalId)
    ensures unnamed { result.0 ≡ 0 }
    ensures named { result.1 ≡ 1 }
{
    (PortalId::UNNAMED, PortalId::NAMED_START)
}

/// Ids are equal where their numbers are.
pub fn ids_are_equal_by_number()
    ensures statements { (a b : ℕ) → ⟦<StatementId as PartialEq>⟧.eq a b ≡ (a == b) }
    ensures portals { (a b : ℕ) → ⟦<PortalId as PartialEq>⟧.eq a b ≡ (a == b) }
{}

/// Two ids with one name are one id.
#[tactic(auto, using(crate::proofs::IdLemmas::one_name))]
pub fn names_are_distinct()
    ensures { (prefix : List ℕ) → AreDistinctUpTo max_id (name prefix) }
{}

/// A clone is the value that was cloned.
pub fn clones_are_equal()
    ensures statements { IsClonedByValue ⟦<StatementId as Clone>⟧.is_clone }
    ensures portals { IsClonedByValue ⟦<PortalId as Clone>⟧.is_clone }
    ensures types { IsClonedByValue ⟦<Oid as Clone>⟧.is_clone }
    ensures values { IsClonedByValue ⟦<PgValueFormat as Clone>⟧.is_clone }
    ensures frontend { IsClonedByValue ⟦<FrontendMessageFormat as Clone>⟧.is_clone }
    ensures backend { IsClonedByValue ⟦<BackendMessageFormat as Clone>⟧.is_clone }
    ensures faults { IsClonedByValue ⟦<ProtocolFault as Clone>⟧.is_clone }
    ensures errors { IsClonedByValue ⟦<Error as Clone>⟧.is_clone }
    ensures kinds { IsClonedByValue ⟦<ErrorKind as Clone>⟧.is_clone }
{}
