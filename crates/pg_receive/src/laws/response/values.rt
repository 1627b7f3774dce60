//! Which numbers the cases of enums have, which texts the constants are, and when two values are equal.

ghost use Rattle.std.specs.Prelude.{◌≡◌, Ok, Decides};
ghost use Rattle.pg_receive.specs.DatabaseError.{check_violation_code, exclusion_violation_code, foreign_key_violation_code, not_null_violation_code, unique_violation_code};
ghost use Rattle.pg_receive.specs.DatabaseError.Position.{position_shown};
ghost use Rattle.pg_receive.specs.Response.Severity.{severity_number};

use crate::database_error::{PgErrorPosition, error_codes};
use crate::message::PgSeverity;
use std::alloc::AllocError;

/// As a number a severity is its place in the list from `Panic`, 0, to `Log`, 7.
pub fn number_of_severity(severity: PgSeverity) -> u8
    ensures { result ≡ severity_number severity }
{
    severity as u8
}

/// Severities are equal where they are the same.
pub fn severities_are_equal_where_they_are_the_same()
    ensures { (a b : PgSeverity) → Decides (⟦<PgSeverity as PartialEq>⟧.eq a b) (a ≡ b) }
{}

/// [`error_codes::UNIQUE_VIOLATION`] is 23505.
pub fn unique_violation() -> &'static str
    ensures { result.now ≡ unique_violation_code }
{
    error_codes::UNIQUE_VIOLATION
}

/// [`error_codes::FOREIGN_KEY_VIOLATION`] is 23503.
pub fn foreign_key_violation() -> &'static str
    ensures { result.now ≡ foreign_key_violation_code }
{
    error_codes::FOREIGN_KEY_VIOLATION
}

/// [`error_codes::NOT_NULL_VIOLATION`] is 23502.
pub fn not_null_violation() -> &'static str
    ensures { result.now ≡ not_null_violation_code }
{
    error_codes::NOT_NULL_VIOLATION
}

/// [`error_codes::CHECK_VIOLATION`] is 23514.
pub fn check_violation() -> &'static str
    ensures { result.now ≡ check_violation_code }
{
    error_codes::CHECK_VIOLATION
}

/// [`error_codes::EXCLUSION_VIOLATION`] is 23P01.
pub fn exclusion_violation() -> &'static str
    ensures { result.now ≡ exclusion_violation_code }
{
    error_codes::EXCLUSION_VIOLATION
}

/// Two positions are equal where they are of one kind, their numbers are equal, and the bytes of
/// their queries are.
pub fn positions_are_equal(a: &PgErrorPosition<'_>, b: &PgErrorPosition<'_>) -> bool
    ensures { Decides result (position_shown a.now ≡ position_shown b.now) }
{
    a == b
}

/// A clone of a severity is that severity.
pub fn clone_of_severity(severity: &PgSeverity) -> Result<PgSeverity, AllocError>
    ensures { result ≡ Ok severity.now }
{
    severity.clone()
}
