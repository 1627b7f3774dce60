//! Laws of messages to a client. Each is a function whose contract is the law.

ghost use Rattle.std.specs.Prelude.{◌≡◌, None};
ghost use Rattle.pg_server.specs.declared.backend.copy.CopyDirection.{CopyDirection};
ghost use Rattle.pg_server.specs.declared.backend.notice.NoticeKind.{NoticeKind};
ghost use Rattle.pg_server.specs.declared.backend.no_body.OutboundNoBody.{OutboundNoBody};
ghost use Rattle.pg_server.specs.declared.backend.ready_for_query.OutboundReadyForQuery.{OutboundReadyForQuery};
ghost use Rattle.pg_server.specs.Backend.Message.{Message, fault, IsInRange, IsRead};
ghost use Rattle.pg_base.specs.Derived.{IsEqualByValue, IsClonedByValue};

use crate::backend::{CopyDirection, NoticeKind, OutboundNoBody, OutboundReadyForQuery};

/// What a message without a fault says is what the page of all messages means by its body, and nothing
/// else: where a reader asks for UTF-8, or tests what it reads, if it passes.
#[tactic(auto, using(crate::proofs::BackendMessageLemmas::own_message))]
pub fn own_messages_are_read()
    ensures { (m : Message) → fault m ≡ None → IsInRange m → IsRead m }
{}

/// Values are equal where they are the same.
pub fn values_are_equal_where_they_are_the_same()
    ensures directions { IsEqualByValue ⟦<CopyDirection as PartialEq>⟧.eq }
    ensures notices { IsEqualByValue ⟦<NoticeKind as PartialEq>⟧.eq }
    ensures bodies { IsEqualByValue ⟦<OutboundNoBody as PartialEq>⟧.eq }
    ensures statuses { IsEqualByValue ⟦<OutboundReadyForQuery as PartialEq>⟧.eq }
{}

/// A clone is the value that was cloned.
pub fn clones_are_equal()
    ensures directions { IsClonedByValue ⟦<CopyDirection as Clone>⟧.is_clone }
    ensures notices { IsClonedByValue ⟦<NoticeKind as Clone>⟧.is_clone }
    ensures bodies { IsClonedByValue ⟦<OutboundNoBody as Clone>⟧.is_clone }
    ensures statuses { IsClonedByValue ⟦<OutboundReadyForQuery as Clone>⟧.is_clone }
{}
