//! The messages of a stream that is there in pieces.

ghost use Rattle.std.specs.Prelude.{IfOk, OnOk, IsOkUnless};
ghost use Rattle.pg_base.specs.declared.error.Error.TheVariants.{OutOfMemory};
ghost use Rattle.pg_frames.specs.Frame.{MatchFound};
ghost use Rattle.pg_frames.specs.Pieces.{tags_and_bodies, IsRead, ReadsOn, ReadsPieces};
ghost use Rattle.pg_frames.specs.Stream.{WantsMore, IsStreamFault};

use crate::reader::FrameReader;
use pg_base::{Error, ProtocolFault};
use pg_format::ReceivedMessage;
use std::alloc::Global;

/// Why a stream gives no more messages.
#[derive(Clone, Copy, Debug, PartialEq, Eq)]
pub enum StreamEnd {
    /// The bytes end, and so many of them are no whole message.
    Rest(usize),
    /// No message begins as the bytes go on: `UnknownMessageType` or `BadLength`.
    Fault(ProtocolFault),
}

/// All whole messages of the stream that the pieces are when joined, up to a fault, and why there
/// are no more. Where memory runs out it is `OutOfMemory`. Documentation: "Messaging Overview".
pub fn read_pieces(
    alloc: Global,
    pieces: &[&[u8]],
) -> Result<(Vec<ReceivedMessage>, StreamEnd), Error>
    ensures read { IfOk result (ReadsPieces tags_and_bodies IsRead pieces.now) }
    ensures memory { IsOkUnless result OutOfMemory }
{
    let mut reader = FrameReader::new(alloc);
    let mut messages = Vec::new(alloc);
    for piece in pieces {
        reader.feed(piece)?;
        if let Some(fault) = take_all(&mut reader, &mut messages)? {
            return Ok((messages, StreamEnd::Fault(fault)));
        }
    }
    Ok((messages, StreamEnd::Rest(reader.len())))
}

// Takes all messages that are whole, and answers the fault where one stops it.
#[tactic(auto, using(crate::proofs::PiecesLemmas::stream_hands_out))]
fn take_all(
    reader: &mut FrameReader,
    messages: &mut Vec<ReceivedMessage>,
) -> Result<Option<ProtocolFault>, Error>
    // The messages and what is left are the stream that they were before.
    ensures stream { OnOk result (ReadsOn messages.old messages.new reader.old reader.new) }
    ensures end { MatchFound result (WantsMore reader.new) (IsStreamFault reader.new) }
    ensures memory { IsOkUnless result OutOfMemory }
{
    loop {
        match reader.next_message() {
            Ok(Some(message)) => messages.push(message)?,
            Ok(None) => return Ok(None),
            Err(Error::Protocol { fault, .. }) => return Ok(Some(fault)),
            Err(Error::OutOfMemory) => return Err(Error::OutOfMemory),
        }
    }
}
