//! Laws of errors and notices. Each is a function whose contract is the law; most have an empty body.

mod values;

ghost use Rattle.std.specs.Prelude.{◌≡◌, ℕ, ◌*◌, ◌≤◌, List, Option, length};
ghost use Rattle.pg_base.specs.Atoi.{Atoi};
ghost use Rattle.pg_receive.specs.Decimal.{leading_decimal};
ghost use Rattle.pg_format.specs.Format.{Means};
ghost use Rattle.pg_receive.specs.Laws.{HoldsOnlyOf, LastCounts, DefaultCounts, HasAtMostOne, IsItsOnly};
ghost use Rattle.pg_receive.specs.Response.{notices};
ghost use Rattle.pg_format.specs.Notices.{code_letter, message_letter};
ghost use Rattle.pg_receive.specs.Response.Fields.{AreFields, fields_in, first_value, first_text};

use crate::message::response::letters;
use crate::message::{Notice, PgSeverity};
pub use values::{
    check_violation, clone_of_severity, exclusion_violation, foreign_key_violation,
    not_null_violation, number_of_severity, positions_are_equal,
    severities_are_equal_where_they_are_the_same, unique_violation,
};

/// The fields of a body are the one list of which each field begins what the fields before it leave,
/// and after which no field follows. They are at most half as many as the bytes.
#[tactic(auto, using(crate::proofs::ResponseFieldsLemmas::are_fields, crate::proofs::ResponseFieldsLemmas::one_fields, crate::proofs::ResponseFieldsLemmas::half_fields))]
pub fn fields_are_in_order()
    ensures are { (body : List ℕ) → AreFields body (fields_in body) }
    ensures only { HoldsOnlyOf AreFields fields_in }
    ensures half { (body : List ℕ) → 2 * length (fields_in body) ≤ length body }
{}

/// The number at the front of a field or an item is the one that `atoi` finds there, and no other.
#[tactic(auto, using(crate::proofs::DecimalLemmas::number_is, crate::proofs::DecimalLemmas::number_is_there))]
pub fn numbers_are_found_by_atoi()
    ensures is { (top : ℕ) (bytes : List ℕ) → Atoi top bytes (leading_decimal top bytes) }
    ensures only { (top : ℕ) → HoldsOnlyOf (Atoi top) (leading_decimal top) }
{}

/// Of several values of one key the last counts, whatever comes before it and whatever other keys
/// follow it. Where no value has the key, it is the default. Texts, numbers and severities are read
/// so.
pub fn the_last_of_a_key_counts()
    ensures is { LastCounts (List ℕ) }
    ensures none { DefaultCounts (List ℕ) }
    ensures number { LastCounts ℕ }
    ensures no_number { DefaultCounts ℕ }
    ensures severity { LastCounts (Option PgSeverity) }
    ensures no_severity { DefaultCounts (Option PgSeverity) }
{}

/// Where a body has at most one field `M`, the message is what [`Notice::get`] answers for `M`, or
/// empty without it. The same holds of `C` and the code.
///
/// [`Notice::get`]: crate::message::Notice::get
pub fn message_is_its_only_field()
    ensures message { IsItsOnly (λ notice. notice.message) message_letter first_text }
    ensures code { IsItsOnly (λ notice. notice.code) code_letter first_text }
    ensures raw_message { IsItsOnly (λ notice. notice.message) message_letter first_value }
    ensures raw_code { IsItsOnly (λ notice. notice.code) code_letter first_value }
{}

/// The same of a user's notice that was decoded: where it has at most one field `M`, what its `get`
/// answers for `M`, or empty, is its message.
pub fn message_by_get(notice: &Notice) -> &str
    requires { (body : List ℕ) × Means notices body notice.now }
    ensures { HasAtMostOne message_letter notice.now.fields → result.now ≡ notice.now.message }
{
    match notice.get(letters::MESSAGE) {
        Some(message) => message,
        None => "",
    }
}

/// As [`message_by_get`], of `C` and the code.
pub fn code_by_get(notice: &Notice) -> &str
    requires { (body : List ℕ) × Means notices body notice.now }
    ensures { HasAtMostOne code_letter notice.now.fields → result.now ≡ notice.now.code }
{
    match notice.get(letters::CODE) {
        Some(code) => code,
        None => "",
    }
}
