//! What is done with a message as soon as its type is known.

ghost use Rattle.std.specs.Prelude.{◌≡◌};
ghost use Rattle.pg_send.specs.FrontendMessage.{Law, fault, hint, room_or_fault};
ghost use Rattle.pg_send.specs.TaggedVisitor.{PutsIfFits, PutsIfReadBack, IsRoundTripCheck, EncodesInRange, FrameFits, PutsFrame};

use crate::message::{Framed, FrontendMessage, encode_frame, put_if_fits};
use pg_base::io::{Encodable, Sink};
use pg_base::{Error, ProtocolFault};

/// Takes a message of any type and what it works on, for [`TaggedMessage::visit`].
///
/// [`TaggedMessage::visit`]: crate::message::TaggedMessage::visit
pub trait TaggedVisitor<State> {
    /// What it answers.
    type Output;

    /// What it asks of a message by its law.
    ghost asks: { Law → State → Type 0 };

    /// What it answers to a message, and makes of what it works on.
    ghost gives: { Law → State → State → Self.Output → Type 0 };

    /// Takes the message.
    fn visit<M: FrontendMessage>(message: &M, state: &mut State) -> Self::Output
        requires { asks (M.law message.now) state.old }
        ensures { gives (M.law message.now) state.old state.new result };
}

/// Adds the frame where the spare room holds it, and says whether it did.
pub struct PutIfFits;

impl TaggedVisitor<Vec<u8>> for PutIfFits {
    type Output = bool;

    ghost asks = { λ law buf. Unit {0} };

    ghost gives = { PutsIfFits };

    #[inline(always)]
    fn visit<M: FrontendMessage>(message: &M, buf: &mut Vec<u8>) -> bool {
        put_if_fits(message, buf)
    }
}

/// The same of a message that a reader would get back.
pub struct PutIfReadBack;

impl TaggedVisitor<Vec<u8>> for PutIfReadBack {
    type Output = bool;

    ghost asks = { λ law buf. Unit {0} };

    ghost gives = { PutsIfReadBack };

    #[inline(always)]
    fn visit<M: FrontendMessage>(message: &M, buf: &mut Vec<u8>) -> bool {
        message.check_round_trip().is_ok() && put_if_fits(message, buf)
    }
}

/// Whether a reader would get the message back.
pub struct CheckRoundTrip;

impl TaggedVisitor<()> for CheckRoundTrip {
    type Output = Result<(), ProtocolFault>;

    ghost asks = { λ law none. Unit {0} };

    ghost gives = { λ law old new result. IsRoundTripCheck law result };

    #[inline(always)]
    fn visit<M: FrontendMessage>(message: &M, _none: &mut ()) -> Result<(), ProtocolFault> {
        message.check_round_trip()
    }
}

/// Adds the frame, and asks for memory where it has to.
pub struct EncodeFrame;

impl TaggedVisitor<Vec<u8>> for EncodeFrame {
    type Output = Result<(), Error>;

    ghost asks = { λ law buf. Unit {0} };

    ghost gives = { EncodesInRange };

    #[inline(always)]
    fn visit<M: FrontendMessage>(message: &M, buf: &mut Vec<u8>) -> Result<(), Error> {
        encode_frame(message, buf)
    }
}

/// Gives the spare room with which the message is encoded without asking for memory.
pub struct FrameRoom;

impl TaggedVisitor<()> for FrameRoom {
    type Output = Result<usize, Error>;

    ghost asks = { λ law none. Unit {0} };

    ghost gives = { λ law old new result. result ≡ room_or_fault (fault law) (hint law) };

    #[inline(always)]
    fn visit<M: FrontendMessage>(message: &M, _none: &mut ()) -> Result<usize, Error> {
        message.frame_room()
    }
}

/// Adds the frame of a message within the limits, in room that is there.
pub struct PutFrame;

impl<S: Sink> TaggedVisitor<S> for PutFrame {
    type Output = ();

    ghost asks = { FrameFits S.written S.capacity };

    ghost gives = { λ law old new result. PutsFrame S.written S.capacity S.loan law old new };

    #[inline(always)]
    fn visit<M: FrontendMessage>(message: &M, sink: &mut S) {
        let len = message.body_len();
        Framed { message, len }.put(sink);
    }
}
