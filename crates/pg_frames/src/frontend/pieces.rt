//! The messages of a client's stream that is there in pieces.

ghost use Rattle.std.specs.Prelude.{◌≡◌, IfOk, OnOk};
ghost use Rattle.pg_frames.specs.Frame.{MatchFound};
ghost use Rattle.pg_frames.specs.Frontend.Pieces.{ClientReadsOn, IsRead, kinds_and_bodies};
ghost use Rattle.pg_frames.specs.Frontend.Reader.{IsFaultIn, WantsMoreIn};
ghost use Rattle.pg_frames.specs.Pieces.{ReadsPieces};

use crate::frontend::error::FrontendError;
use crate::frontend::message::ClientMessage;
use crate::frontend::reader::FrontendFrameReader;
use pg_server::frontend::FrontendFault;
use std::alloc::{AllocError, Global};

/// Why a client's stream gives no more messages.
#[derive(Clone, Copy, Debug, PartialEq, Eq)]
pub enum ClientStreamEnd {
    /// The bytes end, and so many of them are no whole message.
    Rest(usize),
    /// No message begins as the bytes go on: `UnknownTag`, `BadLength` or `FirstTooLong`.
    Fault(FrontendFault),
}

/// All whole messages of the stream that the pieces are when joined, from the start of a connection up to
/// a fault, and why there are no more. Documentation: "Messaging Overview".
pub fn read_client_pieces(
    alloc: Global,
    limit: usize,
    pieces: &[&[u8]],
) -> Result<(Vec<ClientMessage>, ClientStreamEnd), AllocError>
    ensures { IfOk result (ReadsPieces kinds_and_bodies (IsRead limit) pieces.now) }
{
    let mut reader = FrontendFrameReader::new(alloc, limit);
    let mut messages = Vec::new(alloc);
    for piece in pieces {
        reader.feed(piece)?;
        if let Some(fault) = take_all(&mut reader, &mut messages)? {
            return Ok((messages, ClientStreamEnd::Fault(fault)));
        }
    }
    Ok((messages, ClientStreamEnd::Rest(reader.len())))
}

// Takes all messages that are whole, and answers the fault where one stops it.
#[tactic(auto, using(crate::proofs::FrontendPiecesLemmas::stream_hands_out))]
fn take_all(
    reader: &mut FrontendFrameReader,
    messages: &mut Vec<ClientMessage>,
) -> Result<Option<FrontendFault>, AllocError>
    // The messages and what is left are the stream that they were before.
    ensures stream { OnOk result (ClientReadsOn messages.old messages.new reader.old reader.new) }
    ensures limit { OnOk result (reader.new.limit ≡ reader.old.limit) }
    ensures end { MatchFound result (WantsMoreIn reader.new) (IsFaultIn reader.new) }
{
    loop {
        match reader.next_message() {
            Ok(Some(message)) => messages.push(message)?,
            Ok(None) => return Ok(None),
            Err(FrontendError::Protocol(fault)) => return Ok(Some(fault)),
            Err(FrontendError::OutOfMemory) => return Err(AllocError),
        }
    }
}
