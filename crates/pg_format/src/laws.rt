//! What holds of the format of every message.

pub mod examples;

ghost use Rattle.std.specs.Prelude.{Bool, ◌≡◌};
ghost use Rattle.pg_base.specs.Derived.{IsEqualByValue};
ghost use Rattle.pg_base.specs.declared.format.BackendMessageFormat.{BackendMessageFormat};
ghost use Rattle.pg_base.specs.declared.format.FrontendMessageFormat.{FrontendMessageFormat};
ghost use Rattle.pg_format.specs.Format.{Lawful, Canonical, Total};
ghost use Rattle.pg_format.specs.Logical.{change, logical_letter};
ghost use Rattle.pg_format.specs.Replication.{in_copy_data, replication_letter};
ghost use Rattle.pg_format.specs.declared.logical.LogicalKind.{LogicalKind};
ghost use Rattle.pg_format.specs.declared.replication.ReplicationKind.{ReplicationKind};
ghost use Rattle.pg_format.specs.Messages.{from_server, from_client, any_authentication, backend_key, first_message, function_call_response, negotiate_protocol_version, sasl_initial_response};

use crate::logical::LogicalKind;
use crate::protocol::ProtocolMessageKind;
use crate::replication::ReplicationKind;

/// A body from a server means one value or has one fault, never both and never neither; and what is
/// written of a value is read as it.
#[tactic(auto, using(crate::proofs::FormatLaws::FromServer::lawful_server, crate::proofs::FormatLaws::FromServer::total_server))]
pub fn messages_from_a_server()
    ensures lawful { (kind : BackendMessageFormat) → Lawful (from_server kind).format }
    ensures total { (kind : BackendMessageFormat) → Total (from_server kind).format }
{}

/// The same of a request for authentication by any method, of a key of protocol 3.2, and of the messages from a
/// server that aren't of a kind. A CopyBothResponse has the format of a CopyInResponse.
pub fn other_messages_from_a_server()
    ensures lawful_request { Lawful any_authentication }
    ensures total_request { Total any_authentication }
    ensures lawful_key { Lawful backend_key }
    ensures total_key { Total backend_key }
    ensures lawful_call { Lawful function_call_response }
    ensures total_call { Total function_call_response }
    ensures lawful_negotiation { Lawful negotiate_protocol_version }
    ensures total_negotiation { Total negotiate_protocol_version }
{}

/// The same of a body from a client, in which each value has one spelling.
#[tactic(auto, using(crate::proofs::FormatLaws::FromClient::lawful_client, crate::proofs::FormatLaws::FromClient::canonical_client, crate::proofs::FormatLaws::FromClient::total_client))]
pub fn messages_from_a_client()
    ensures lawful { (kind : FrontendMessageFormat) → Lawful (from_client kind).format }
    ensures canonical { (kind : FrontendMessageFormat) → Canonical (from_client kind).format }
    ensures total { (kind : FrontendMessageFormat) → Total (from_client kind).format }
{}

/// The same of a SASLInitialResponse, whose kind is that of all passwords.
#[tactic(auto, using(crate::proofs::FormatLaws::FromClient::lawful_sasl_initial_response, crate::proofs::FormatLaws::FromClient::canonical_sasl_initial_response, crate::proofs::FormatLaws::FromClient::total_sasl_initial_response))]
pub fn sasl_initial_responses()
    ensures lawful { Lawful sasl_initial_response }
    ensures canonical { Canonical sasl_initial_response }
    ensures total { Total sasl_initial_response }
{}

/// The same of a message without a tag.
#[tactic(auto, using(crate::proofs::FormatLaws::FromClient::lawful_first_message, crate::proofs::FormatLaws::FromClient::total_first_message))]
pub fn messages_without_a_tag()
    ensures lawful { Lawful first_message }
    ensures total { Total first_message }
{}

/// The same of what follows the letter in the data of a CopyData, while a connection replicates.
#[tactic(auto, using(crate::proofs::FormatLaws::Replication::lawful_in_copy_data, crate::proofs::FormatLaws::Replication::total_in_copy_data))]
pub fn messages_of_replication()
    ensures lawful { (kind : ReplicationKind) → Lawful (in_copy_data kind).format }
    ensures total { (kind : ReplicationKind) → Total (in_copy_data kind).format }
{}

/// The same of what follows the letter in a message of logical replication, in a streamed transaction and outside of one.
#[tactic(auto, using(crate::proofs::FormatLaws::Logical::lawful_in_change_stream, crate::proofs::FormatLaws::Logical::total_in_change_stream))]
pub fn messages_of_logical_replication()
    ensures lawful { (streamed : Bool) (kind : LogicalKind) → Lawful (change streamed kind) }
    ensures total { (streamed : Bool) (kind : LogicalKind) → Total (change streamed kind) }
{}

/// Kinds of message are equal where they are the same.
pub fn kinds_are_equal_by_value()
    ensures protocol { IsEqualByValue ⟦<ProtocolMessageKind as PartialEq>⟧.eq }
    ensures replication { IsEqualByValue ⟦<ReplicationKind as PartialEq>⟧.eq }
    ensures logical { IsEqualByValue ⟦<LogicalKind as PartialEq>⟧.eq }
{}

/// The number of a kind of message of replication is its letter.
pub fn number_of_replication_kind(kind: ReplicationKind) -> u8
    ensures { result ≡ replication_letter kind }
{
    kind as u8
}

/// The number of a kind of message of logical replication is its letter.
pub fn number_of_logical_kind(kind: LogicalKind) -> u8
    ensures { result ≡ logical_letter kind }
{
    kind as u8
}
