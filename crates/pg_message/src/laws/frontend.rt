//! Laws of messages that are written and read. Each is a function whose contract is the law.

ghost use Rattle.pg_format.specs.Format.{AreBytes};
ghost use Rattle.pg_send.specs.Message.{Message, tag, body, IfReadable};
ghost use Rattle.pg_send.specs.Run.{IsMeantByTag, IsMeantIfItCan};
ghost use Rattle.pg_message.specs.Frontend.{IsReadByTag, IsReadIfItCan, AreReadIfMeant};

/// A message within the limits that can make the round trip is read, from its tag and body alone, as
/// itself: numbered names as their texts, and passwords and SASL's messages as their bytes.
#[tactic(auto, using(crate::proofs::FrontendLemmas::read_back))]
pub fn own_messages_are_read()
    ensures { (m : Message) → IfReadable m (AreBytes (body m) → IsReadByTag m (tag m, body m)) }
{}

/// What `encode_all` adds is read, from the tag and the body of each frame alone: each accepted message that can
/// make the round trip. So is what `encode_strict` adds, each accepted message.
pub fn runs_are_read()
    ensures all { AreReadIfMeant IsMeantIfItCan IsReadIfItCan }
    ensures strict { AreReadIfMeant IsMeantByTag IsReadByTag }
{}
