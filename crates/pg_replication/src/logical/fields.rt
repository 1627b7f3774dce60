//! What follows the letter of a message: how it is read where the transaction may be streamed, and how it is written.

ghost use Rattle.std.specs.Prelude.{◌≡◌, ◌≤◌, ◌++◌, length, None};
ghost use Rattle.pg_base.specs.Cutting.{max_length};
ghost use Rattle.pg_base.specs.Part.{PartLaw, saturated};
ghost use Rattle.pg_base.specs.Sink.{HasRoom};
ghost use Rattle.pg_base.specs.Tagged.{IsSame};
ghost use Rattle.pg_format.specs.Format.Places.{ReadsAfter};
ghost use Rattle.pg_replication.specs.Logical.Fields.{rest_of, with_transaction};

use pg_base::ProtocolFault;
use pg_base::io::part::{Number32, Part, Then};
use pg_base::io::{MAX_BODY, Sink};
use pg_format::field::fields_from;
use pg_format::items::Item;

/// The fields that a message has from an offset on, after the number of its transaction, which is there where the
/// transaction is streamed.
pub(crate) fn streamed_fields<'a, F: Item<'a> + Copy>(
    message: &'a [u8],
    at: usize,
    streamed: bool,
) -> Result<(Option<u32>, F), ProtocolFault>
    requires within { at ≤ length message.now }
    requires short { length message.now ≤ MAX_BODY }
    ensures { ReadsAfter (rest_of streamed F.format) (with_transaction F.shown) message.now at result }
{
    if streamed {
        let Then(Number32(transaction), fields) = fields_from::<Then<Number32, F>>(message, at)?;
        Ok((Some(transaction), fields))
    } else {
        Ok((None, fields_from::<F>(message, at)?))
    }
}

/// The number of a transaction, where it is streamed.
#[derive(Clone, Copy)]
pub struct Transaction(pub Option<u32>);

impl Part for Transaction {
    ghost use Rattle.pg_replication.specs.Logical.Encode.{transaction_part};

    ghost part = { λ it. transaction_part it.0 };

    #[inline(always)]
    fn len(&self) -> usize {
        if self.0.is_some() { 4 } else { 0 }
    }

    #[inline(always)]
    fn fault(&self) -> Option<ProtocolFault> {
        None
    }

    #[inline(always)]
    fn put<S: Sink>(&self, sink: &mut S) {
        if let Some(number) = self.0 {
            sink.put_u32(number);
        }
    }
}

/// What a message says after its letter, as it is written.
pub(crate) trait OutboundFields {
    /// The parts: those by which it is read.
    type Parts: Part;

    /// All that is said of them.
    ghost law: { Self → PartLaw };

    /// The parts, each with what the message says.
    fn parts(&self) -> Self::Parts
        ensures { IsSame (Self.Parts.part result) (law self.now) };

    /// Their length in bytes; sums saturate.
    final fn len(&self) -> usize
        ensures { result ≡ saturated (length (law self.now).text) }
    {
        self.parts().len()
    }

    /// Their first fault.
    final fn fault(&self) -> Option<ProtocolFault>
        ensures { result ≡ (law self.now).fault }
    {
        self.parts().fault()
    }

    /// Adds them, in room that is there.
    final fn put<S: Sink>(&self, sink: &mut S)
        requires counted { (law self.now).fault ≡ None }
        requires small { length (law self.now).text ≤ max_length }
        requires room { HasRoom (S.capacity sink.old) (S.written sink.old) (law self.now).text }
        ensures written { S.written sink.new ≡ S.written sink.old ++ (law self.now).text }
        ensures capacity { S.capacity sink.old ≤ S.capacity sink.new }
        ensures loan { S.loan sink.new ≡ S.loan sink.old }
        ensures range { (law self.now).IsInRange }
    {
        self.parts().put(sink);
    }
}
