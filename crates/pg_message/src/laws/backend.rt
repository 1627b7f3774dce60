//! Laws of messages that are written and received. Each is a function whose contract is the law.

ghost use Rattle.std.specs.Prelude.{◌≡◌, None};
ghost use Rattle.pg_server.specs.Backend.Message.{Message, fault, IsInRange, IsReadable};
ghost use Rattle.pg_replication.specs.Logical.Encode.{content_part};
ghost use Rattle.pg_replication.specs.declared.logical.xlog_message.XLogMessage.{XLogMessage};
ghost use Rattle.pg_message.specs.Backend.{IsDecodedBack, IsAskedBack, IsReadRaw, IsReadInPiece, streamed};

/// A message without a fault, of a kind that has a type, is decoded as that type by its tag and body to
/// what it says, or memory runs out. A request for authentication by any method is read as that request,
/// and as no other.
#[tactic(auto, using(crate::proofs::BackendLemmas::decoded_back, crate::proofs::BackendLemmas::asked_back))]
pub fn own_messages_are_decoded()
    ensures asked { (m : Message) → fault m ≡ None → IsInRange m → IsReadable m → IsAskedBack m }
    ensures decoded { (m : Message) → fault m ≡ None → IsInRange m → IsReadable m → IsDecodedBack m }
{}

/// Of a message without a fault the readers of texts in any encoding read what it says: fields of a notice
/// that a decoder would refuse, settings and columns whose names aren't UTF-8, the tag of a command, and a
/// key of 4 to 256 bytes.
#[tactic(auto, using(crate::proofs::RawLemmas::read_raw))]
pub fn own_messages_are_read_in_any_encoding()
    ensures { (m : Message) → fault m ≡ None → IsInRange m → IsReadRaw m }
{}

/// A message of logical replication that is written as a whole CopyData, without a fault and with numbers in
/// the ranges of their types, is read as itself, and as no other: its CopyData means a piece of the log, whose
/// content is read.
pub fn own_log_messages_are_read()
    ensures { (it : XLogMessage) → fault (streamed it) ≡ None → IsInRange (streamed it) → (content_part it.message).IsInRange → IsReadInPiece it }
{}
