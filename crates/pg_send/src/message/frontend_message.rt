//! The law of a message that is sent, and the frame round each.

ghost use Rattle.std.specs.Prelude.{◌≡◌, ◌+◌, ◌≤◌, ◌<◌, ◌++◌, length, None, Ok, OnOk, OnErr, IfErr, IsOkUnless, vec_capacity};
ghost use Rattle.std.specs.Bool.{OnTrue, OnFalse};
ghost use Rattle.pg_base.specs.declared.error.Error.TheVariants.{OutOfMemory};
ghost use Rattle.pg_base.specs.declared.error.ProtocolFault.{ProtocolFault};
ghost use Rattle.pg_base.specs.Sink.{IsGiven, HasRoom};
ghost use Rattle.pg_base.specs.Cutting.{max_length};
ghost use Rattle.pg_base.specs.Part.{saturated};
ghost use Rattle.pg_send.specs.FrontendMessage.{Law, CannotRoundTrip, tag, fault, hint, text, checked_len, EncodesMessage, IsShortFor, ReservesEnough, room_asked};
ghost use Rattle.pg_base.specs.Encode.{IsShort};

use pg_base::io::part::Part;
use pg_base::io::{Encodable, HEADER, ProtocolEncode, Sink, Tagged, checked_len, write_text};
use pg_base::{Error, FrontendMessageFormat, ProtocolFault};

/// A message that a client sends, after a tag and a length.
///
/// A type says what defines it by `law`, and implements the six functions without a body here; the
/// others are written once over them.
pub trait FrontendMessage: Sized + Drop {
    /// The kind of message, by its tag.
    const FORMAT: FrontendMessageFormat;

    /// All that is said of the message.
    ghost law: { Self → Law };

    /// The tag, as a byte.
    fn tag(&self) -> u8
        ensures { result ≡ tag (law self.now) };

    /// The length of the body, in bytes; sums saturate.
    fn body_len(&self) -> usize
        ensures { result ≡ saturated (length (law self.now).body) };

    /// The first limit on counts that the message breaks: on parameter formats, result formats,
    /// parameter types or values.
    fn count_fault(&self) -> Option<ProtocolFault>
        ensures { result ≡ (law self.now).count_fault };

    /// Whether a reader would get the message back from its bytes: refused with `TextHoldsNul` where a
    /// text or a name that the protocol ends with a NUL holds one, and with `BadParams` for a Bind whose
    /// parameters are not as many values as it says.
    fn check_round_trip(&self) -> Result<(), ProtocolFault>
        ensures ok { OnOk result (law self.now).CanRoundTrip }
        ensures fault { IfErr result (CannotRoundTrip (law self.now)) };

    /// How much room to reserve for a body of `len` bytes, as `body_len` gives it.
    fn room_for(&self, len: usize) -> usize
        requires { len ≡ saturated (length (law self.now).body) }
        ensures { result ≡ hint (law self.now) };

    /// Adds the body of a message within the limits, in room that is there.
    fn put_body<S: Sink>(&self, sink: &mut S)
        requires counted { (law self.now).count_fault ≡ None }
        requires small { length (law self.now).body ≤ max_length }
        requires room { HasRoom (S.capacity sink.old) (S.written sink.old) (law self.now).body }
        ensures written { S.written sink.new ≡ S.written sink.old ++ (law self.now).body }
        ensures capacity { S.capacity sink.old ≤ S.capacity sink.new }
        ensures loan { S.loan sink.new ≡ S.loan sink.old }
        ensures range { (law self.now).IsInRange };

    /// Within the limits the room that is reserved holds the body.
    ghost enough: { (message : Self) → ReservesEnough (law message) };

    /// How much room to reserve for the body, in bytes. Within the limits it is at least the
    /// length of the body; sums saturate.
    final fn body_size_hint(&self) -> usize
        ensures { result ≡ hint (law self.now) }
    {
        self.room_for(self.body_len())
    }

    /// The exact length of the body in bytes, or the first limit that the message breaks: on
    /// a count, as [`FrontendMessage::count_fault`] gives it, and then on the length.
    final fn checked_body_len(&self) -> Result<usize, Error>
        ensures { result ≡ checked_len (fault (law self.now)) (length (law self.now).body) }
    {
        Ok(checked_len(&BodyOf(self))?)
    }

    /// The spare room in bytes with which the message is encoded without asking for memory, or the
    /// first limit that it breaks.
    final fn frame_room(&self) -> Result<usize, Error>
        ensures { result ≡ room_asked (law self.now) }
    {
        let len = self.checked_body_len()?;
        Ok(self.room_for(len).saturating_add(HEADER))
    }

    /// Adds the body of a message within the limits. The only refusal is `OutOfMemory`, where the
    /// spare room doesn't hold the body, and it leaves the buffer's bytes as they were.
    final fn encode_body(&self, buf: &mut Vec<u8>) -> Result<(), Error>
        requires { fault (law self.now) ≡ None }
        ensures ok { OnOk result (buf.new.items ≡ buf.old.items ++ (law self.now).body) }
        ensures memory { IsOkUnless result OutOfMemory }
        ensures err { OnErr result (buf.new.items ≡ buf.old.items) }
        ensures room { OnErr result (IsShort buf.old (length (law self.now).body)) }
        ensures capacity { vec_capacity buf.old ≤ vec_capacity buf.new }
        ensures range { OnOk result (law self.now).IsInRange }
    {
        let len = self.checked_body_len()?;
        buf.reserve(len)?;
        self.put_body(buf);
        Ok(())
    }

    /// Adds the whole message to the buffer, as [`encode_frame`] does.
    final fn encode_msg(self, buf: &mut Vec<u8>) -> Result<(), Error>
        ensures encodes { EncodesMessage (law self) buf.old buf.new result }
        ensures range { OnOk result (law self).IsInRange }
    {
        encode_frame(&self, buf)
    }
}

/// Adds tag, length and body of a message to the buffer.
///
/// Every refusal leaves the bytes of the buffer as they were: a broken limit, exactly where there
/// is one and before memory is asked for, or `OutOfMemory`, only where the spare room is less than
/// the hint and five.
// Inlined, so that an answer without a fault isn't written to memory and read again.
#[inline(always)]
pub fn encode_frame<F: FrontendMessage>(message: &F, buf: &mut Vec<u8>) -> Result<(), Error>
    ensures encodes { EncodesMessage (F.law message.now) buf.old buf.new result }
    ensures range { OnOk result (F.law message.now).IsInRange }
{
    if put_if_fits(message, buf) {
        return Ok(());
    }
    encode_or_refuse(message, buf)
}

/// Adds tag, length and body of a message within the limits where the spare room holds the hint
/// and five, and says whether it did; else the buffer stays.
// A function of its own for each type: inlined side by side they would pay for each other's locals.
#[inline(never)]
pub fn put_if_fits<F: FrontendMessage>(message: &F, buf: &mut Vec<u8>) -> bool
    ensures encodes { OnTrue result (EncodesMessage (F.law message.now) buf.old buf.new (Ok tt)) }
    ensures range { OnTrue result (F.law message.now).IsInRange }
    ensures same { OnFalse result (buf.new ≡ buf.old) }
    // It is false only where a limit is broken or the spare room is short.
    ensures short { OnFalse result (IsShortFor (F.law message.now) buf.old) }
{
    let Ok(len) = checked_len(&BodyOf(message)) else {
        return false;
    };
    if buf.capacity() - buf.len() < message.room_for(len).saturating_add(HEADER) {
        return false;
    }
    Framed { message, len }.put(buf);
    true
}

// What doesn't fit, or is refused.
#[cold]
#[inline(never)]
fn encode_or_refuse<F: FrontendMessage>(message: &F, buf: &mut Vec<u8>) -> Result<(), Error>
    ensures encodes { EncodesMessage (F.law message.now) buf.old buf.new result }
    ensures range { OnOk result (F.law message.now).IsInRange }
{
    let len = message.checked_body_len()?;
    buf.reserve(message.room_for(len).saturating_add(HEADER))?;
    Framed { message, len }.put(buf);
    Ok(())
}

/// Writes tag, length and body of a message within the limits at the front of `out` where it is
/// that long; else `out` stays. `len` is the length of the body in bytes.
#[inline]
pub fn write_frame<F: FrontendMessage>(message: &F, len: usize, out: &mut [u8])
    requires limits { fault (F.law message.now) ≡ None }
    requires len { len ≡ length (F.law message.now).body }
    ensures given { IsGiven (text (F.law message.now)) out.old out.new }
{
    write_text(&Framed { message, len }, len + HEADER, out);
}

/// A message within the limits, and the length of its body in bytes.
#[derive(Drop)]
pub struct Framed<'a, F> {
    pub message: &'a F,
    pub len: usize,
}

impl<F: FrontendMessage> Encodable for Framed<'_, F> {
    ghost use Rattle.pg_send.specs.FrontendMessage.{text, IsMeasured};

    ghost text = { λ framed. text (F.law framed.message.now) };

    ghost can = { λ framed. IsMeasured (F.law framed.message.now) framed.len };

    ghost IsInRange = { λ framed. (F.law framed.message.now).IsInRange };

    #[inline(always)]
    fn put<S: Sink>(&self, sink: &mut S) {
        let tagged = Tagged {
            tag: self.message.tag(),
            parts: &BodyOf(self.message),
            len: self.len,
        };
        tagged.put(sink);
    }
}

/// The body of a message, as a part.
#[derive_where(Clone, Copy)]
pub struct BodyOf<'a, F>(pub &'a F);

impl<F: FrontendMessage> Part for BodyOf<'_, F> {
    ghost use Rattle.pg_send.specs.FrontendMessage.{part_of};

    ghost part = { λ it. part_of (F.law it.0.now) };

    #[inline(always)]
    fn len(&self) -> usize {
        self.0.body_len()
    }

    #[inline(always)]
    fn fault(&self) -> Option<ProtocolFault> {
        self.0.count_fault()
    }

    #[inline(always)]
    fn put<S: Sink>(&self, sink: &mut S) {
        self.0.put_body(sink);
    }
}

/// A message as [`ProtocolEncode`] writes it: by [`encode_frame`].
#[derive(Drop)]
pub struct EncodeMessage<F>(pub F);

impl<F: FrontendMessage> ProtocolEncode for EncodeMessage<F> {
    ghost text = { λ message. text (F.law message.0) };

    ghost fault = { λ message. fault (F.law message.0) };

    ghost room = { λ message. hint (F.law message.0) + 5 };

    fn encode(&self, buf: &mut Vec<u8>) -> Result<(), Error>
        ensures message { EncodesMessage (F.law self.now.0) buf.old buf.new result }
        ensures range { OnOk result (F.law self.now.0).IsInRange }
    {
        encode_frame(&self.0, buf)
    }
}
