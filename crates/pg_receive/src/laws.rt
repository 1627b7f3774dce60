//! Laws of what is received. Each is a function whose contract is the law; most have an empty body.

pub mod response;
mod values;

ghost use Rattle.std.specs.Prelude.{ℕ, ◌*◌, ◌≤◌, List, length};
ghost use Rattle.pg_format.specs.Sasl.{items_in};
ghost use Rattle.pg_receive.specs.Authentication.Mechanisms.{AreMechanisms, mechanisms_in};
ghost use Rattle.pg_receive.specs.Authentication.SaslItems.{AreItems};
ghost use Rattle.pg_receive.specs.CommandComplete.{IsRowsAffected, row_count};
ghost use Rattle.pg_base.specs.declared.format.BackendMessageFormat.{BackendMessageFormat};
ghost use Rattle.pg_format.specs.Format.{Lawful};
ghost use Rattle.pg_format.specs.Format.Nullable.{cell};
ghost use Rattle.pg_format.specs.Messages.{column, data_row, row_description};
ghost use Rattle.pg_receive.specs.DataRow.{IsAfter};
ghost use Rattle.pg_receive.specs.Laws.{HoldsOnlyOf, ItemsFit, HoldsOfValues, ReadsOneByOne};
ghost use Rattle.pg_receive.specs.Layout.{layout};
ghost use Rattle.pg_receive.specs.RowDescription.Raw.{raw_column, raw_row_description};

pub use values::{
    clone_of_key, clone_of_ready, clone_of_status, letter_of_status,
    values_are_equal_where_they_are_the_same,
};

/// The cells of a row are in its body in order, each value after the cells before it and its own
/// length; so a body of n bytes has at most (n - 2) / 4 cells.
pub fn cells_are_in_order()
    ensures fit { ItemsFit data_row 4 }
    ensures order { HoldsOfValues IsAfter }
{}

/// Cells that are read one by one are, at the end, all that the body means, or the body has the fault
/// that comes after them; and so are columns, whatever the encoding of their names.
pub fn what_is_read_one_by_one_is_what_the_body_means()
    ensures cells { ReadsOneByOne data_row cell 4 }
    ensures columns { ReadsOneByOne row_description column 19 }
    ensures raw_columns { ReadsOneByOne raw_row_description raw_column 19 }
{}

/// The parts of a body have one end, or one fault, never both.
pub fn layouts_are_lawful()
    ensures { (kind : BackendMessageFormat) → Lawful (layout kind).format }
{}

/// A body of n bytes describes at most (n - 2) / 19 columns.
#[tactic(auto, using(crate::proofs::RowDescriptionColumnsLemmas::columns_fit))]
pub fn columns_fit_in_their_body()
    ensures { ItemsFit row_description 19 }
{}

/// The mechanisms of some bytes are the one list of which each name begins what the names before it
/// leave, and after which no name follows. They are at most half as many as the bytes.
#[tactic(auto, using(crate::proofs::AuthenticationMechanismsLemmas::are_mechanisms, crate::proofs::AuthenticationMechanismsLemmas::one_mechanisms, crate::proofs::AuthenticationMechanismsLemmas::half_mechanisms))]
pub fn mechanisms_are_in_order()
    ensures are { (bytes : List ℕ) → AreMechanisms bytes (mechanisms_in bytes) }
    ensures only { HoldsOnlyOf AreMechanisms mechanisms_in }
    ensures half { (bytes : List ℕ) → 2 * length (mechanisms_in bytes) ≤ length bytes }
{}

/// The items of SASL data are the one list of pieces without a comma that joined by commas are the
/// data.
#[tactic(auto, using(crate::proofs::AuthenticationSaslItemsLemmas::are_items, crate::proofs::AuthenticationSaslItemsLemmas::one_items))]
pub fn sasl_items_are_between_commas()
    ensures are { (bytes : List ℕ) → AreItems bytes (items_in bytes) }
    ensures only { HoldsOnlyOf AreItems items_in }
{}

/// The rows that a tag counts are the number after its last space, or 0 if no number follows a last
/// space.
pub fn rows_follow_the_last_space()
    ensures are { (tag : List ℕ) → IsRowsAffected tag (row_count tag) }
    ensures only { HoldsOnlyOf IsRowsAffected row_count }
{}
