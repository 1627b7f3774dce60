//! Any message that has a tag.

ghost use Rattle.std.specs.Prelude.{◌≡◌, ◌+◌, ◌<◌, ◌≤◌, ◌++◌, None, Ok, OnOk, IfErr};
ghost use Rattle.std.specs.Bool.{OnTrue, OnFalse};
ghost use Rattle.pg_send.specs.FrontendMessage.{CannotRoundTrip, EncodesMessage, IsShortFor, IsShortIfItCan, Adds, room_asked};
ghost use Rattle.pg_send.specs.Message.{message_of, FitsInto, law_of, fault, text, IsInRange, CanRoundTrip, RoundTripsIfItCan};
ghost use Rattle.pg_send.specs.Run.{IsMeantIfItCan, OneIsRead};

use crate::message::tagged_visitor::{
    CheckRoundTrip, EncodeFrame, FrameRoom, PutFrame, PutIfFits, PutIfReadBack, TaggedVisitor,
};
use crate::message::{
    Bind, Close, CopyData, CopyDone, CopyFail, Describe, Execute, Flush, FunctionCall, Parse,
    Password, Query, RawBind, RawClose, RawDescribe, RawExecute, RawParse, SaslInitial,
    SaslInitialResponse, SaslResponse, Sync, Terminate,
};
use pg_base::io::Sink;
use pg_base::{Error, ProtocolFault};

/// Any message that has a tag.
#[derive(Drop)]
pub enum TaggedMessage<'a> {
    Bind(Bind<'a>),
    Close(Close),
    CopyData(CopyData<&'a [u8]>),
    CopyDone(CopyDone),
    CopyFail(&'a CopyFail),
    Describe(Describe),
    Execute(Execute),
    Flush(Flush),
    FunctionCall(FunctionCall<'a>),
    Parse(Parse<'a>),
    Password(Password<'a>),
    Query(Query<'a>),
    RawBind(RawBind<'a>),
    RawClose(RawClose<'a>),
    RawDescribe(RawDescribe<'a>),
    RawExecute(RawExecute<'a>),
    RawParse(RawParse<'a>),
    SaslInitial(SaslInitial<'a>),
    SaslInitialResponse(SaslInitialResponse<'a>),
    SaslResponse(SaslResponse<'a>),
    Sync(Sync),
    Terminate(Terminate),
}

impl TaggedMessage<'_> {
    /// Adds the message to the buffer: [`encode_frame`](crate::message::encode_frame) of what it holds.
    // Inlined, so that the answer isn't copied on its way.
    #[inline(always)]
    pub fn encode(&self, buf: &mut Vec<u8>) -> Result<(), Error>
        ensures encodes { EncodesMessage (law_of (message_of self.now)) buf.old buf.new result }
        ensures range { OnOk result (IsInRange (message_of self.now)) }
        // A reader that is given the kind gets the message back from its body, and no other.
        ensures round_trip { OnOk result (RoundTripsIfItCan (message_of self.now)) }
        // By the tag and the body of its frame alone, the page means it.
        ensures by_tag { OneIsRead IsMeantIfItCan (message_of self.now) result buf.old buf.new }
    {
        self.put_or_encode(buf)
    }

    // Adds it in the spare room where that holds it, else by a call that may ask for memory.
    #[inline(always)]
    fn put_or_encode(&self, buf: &mut Vec<u8>) -> Result<(), Error>
        ensures encodes { EncodesMessage (law_of (message_of self.now)) buf.old buf.new result }
        ensures range { OnOk result (IsInRange (message_of self.now)) }
    {
        if self.put_if_fits(buf) {
            return Ok(());
        }
        self.encode_held(buf)
    }

    /// Adds the message within the limits where the spare room holds it:
    /// [`put_if_fits`](crate::message::put_if_fits) of what it holds.
    #[inline(always)]
    pub fn put_if_fits(&self, buf: &mut Vec<u8>) -> bool
        ensures encodes { OnTrue result (Adds (law_of (message_of self.now)) buf.old buf.new) }
        ensures range { OnTrue result (IsInRange (message_of self.now)) }
        ensures same { OnFalse result (buf.new ≡ buf.old) }
        // It is false only where a limit is broken or the spare room is short.
        ensures short { OnFalse result (IsShortFor (law_of (message_of self.now)) buf.old) }
    {
        self.visit::<Vec<u8>, PutIfFits>(buf)
    }

    // The same of a message that a reader would get back.
    #[inline(always)]
    pub(crate) fn put_if_read_back(&self, buf: &mut Vec<u8>) -> bool
        ensures encodes { OnTrue result (Adds (law_of (message_of self.now)) buf.old buf.new) }
        ensures range { OnTrue result (IsInRange (message_of self.now)) }
        ensures can { OnTrue result (CanRoundTrip (message_of self.now)) }
        ensures same { OnFalse result (buf.new ≡ buf.old) }
        ensures short { OnFalse result (IsShortIfItCan (law_of (message_of self.now)) buf.old) }
    {
        self.visit::<Vec<u8>, PutIfReadBack>(buf)
    }

    // The frame of what it holds.
    #[cold]
    #[inline(never)]
    fn encode_held(&self, buf: &mut Vec<u8>) -> Result<(), Error>
        ensures encodes { EncodesMessage (law_of (message_of self.now)) buf.old buf.new result }
        ensures range { OnOk result (IsInRange (message_of self.now)) }
    {
        self.visit::<Vec<u8>, EncodeFrame>(buf)
    }

    /// The spare room in bytes with which the message is encoded without asking for memory, or the
    /// first limit that it breaks.
    // Inlined, so that a run needn't copy the answer.
    #[inline(always)]
    pub fn frame_room(&self) -> Result<usize, Error>
        ensures { result ≡ room_asked (law_of (message_of self.now)) }
    {
        self.visit::<(), FrameRoom>(&mut ())
    }

    /// Whether a reader would get the message back from its bytes: refused with `TextHoldsNul` where a
    /// text or a name that the protocol ends with a NUL holds one, and with `BadParams` for a Bind
    /// whose parameters are not as many values as it says.
    #[inline(always)]
    pub fn check_round_trip(&self) -> Result<(), ProtocolFault>
        ensures ok { OnOk result (CanRoundTrip (message_of self.now)) }
        ensures fault { IfErr result (CannotRoundTrip (law_of (message_of self.now))) }
    {
        self.visit::<(), CheckRoundTrip>(&mut ())
    }

    /// Adds a message within the limits, in room that is there.
    #[inline]
    pub fn put_frame<S: Sink>(&self, sink: &mut S)
        requires limits { fault (message_of self.now) ≡ None }
        requires room { FitsInto (S.capacity sink.old) (S.written sink.old) (message_of self.now) }
        ensures written { S.written sink.new ≡ S.written sink.old ++ text (message_of self.now) }
        ensures capacity { S.capacity sink.old ≤ S.capacity sink.new }
        ensures loan { S.loan sink.new ≡ S.loan sink.old }
        ensures range { IsInRange (message_of self.now) }
    {
        self.visit::<S, PutFrame>(sink)
    }

    // What a visitor makes of what it holds, whichever type that is.
    #[inline(always)]
    fn visit<State, V: TaggedVisitor<State>>(&self, state: &mut State) -> V::Output
        requires { V.asks (law_of (message_of self.now)) state.old }
        ensures { V.gives (law_of (message_of self.now)) state.old state.new result }
    {
        match self {
            TaggedMessage::Bind(message) => V::visit(message, state),
            TaggedMessage::Close(message) => V::visit(message, state),
            TaggedMessage::CopyData(message) => V::visit(message, state),
            TaggedMessage::CopyDone(message) => V::visit(message, state),
            TaggedMessage::CopyFail(message) => {
                let message: &CopyFail = message;
                V::visit(message, state)
            }
            TaggedMessage::Describe(message) => V::visit(message, state),
            TaggedMessage::Execute(message) => V::visit(message, state),
            TaggedMessage::Flush(message) => V::visit(message, state),
            TaggedMessage::FunctionCall(message) => V::visit(message, state),
            TaggedMessage::Parse(message) => V::visit(message, state),
            TaggedMessage::Password(message) => V::visit(message, state),
            TaggedMessage::Query(message) => V::visit(message, state),
            TaggedMessage::RawBind(message) => V::visit(message, state),
            TaggedMessage::RawClose(message) => V::visit(message, state),
            TaggedMessage::RawDescribe(message) => V::visit(message, state),
            TaggedMessage::RawExecute(message) => V::visit(message, state),
            TaggedMessage::RawParse(message) => V::visit(message, state),
            TaggedMessage::SaslInitial(message) => V::visit(message, state),
            TaggedMessage::SaslInitialResponse(message) => V::visit(message, state),
            TaggedMessage::SaslResponse(message) => V::visit(message, state),
            TaggedMessage::Sync(message) => V::visit(message, state),
            TaggedMessage::Terminate(message) => V::visit(message, state),
        }
    }
}
