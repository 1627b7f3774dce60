//! The messages of a load, and the server's answer to it.

ghost use Rattle.std.specs.Prelude.{◌≡◌, ◌<◌, ◌++◌, OnOk, OnErr};
ghost use Rattle.examples.specs.CopyLoad.{AddsCopyOf, AddsFrontOf, query_text};

use super::error::LoadError;
use pg_message::error::Error;
use pg_message::message::{
    CopyData, CopyDone, FrameReader, FrontendMessage, Query, ReceivedMessage, ServerMessage,
    encode_frame,
};
use std::alloc::Global;

/// A load that waits for answers of the server.
#[derive(Drop)]
pub struct Load<'a> {
    alloc: Global,
    reader: FrameReader,
    rows: &'a [u8],
    most: usize,
    loaded: u64,
    ghost positive: { 0 < most },
}

impl<'a> Load<'a> {
    /// Starts a load of rows, each a line in the text format of COPY, in messages of at most `most`
    /// bytes of data. The statement is one of COPY .. FROM STDIN; it is added to the output.
    pub fn start(
        alloc: Global,
        statement: &str,
        rows: &'a [u8],
        most: usize,
        output: &mut Vec<u8>,
    ) -> Result<Load<'a>, LoadError>
        requires { 0 < most }
        ensures ok { OnOk result (output.new.items ≡ output.old.items ++ query_text statement.now) }
        ensures err { OnErr result (output.new.items ≡ output.old.items) }
    {
        let query = Query(statement);
        query.check_round_trip().map_err(Error::from)?;
        encode_frame(&query, output)?;
        Ok(Load {
            alloc,
            reader: FrameReader::new(alloc),
            rows,
            most,
            loaded: 0,
        })
    }

    /// Takes the next bytes from the server. It adds the rows to the output as soon as the server
    /// asks for them, and gives how many rows were loaded once the server is ready again.
    pub fn receive(
        &mut self,
        bytes: &[u8],
        output: &mut Vec<u8>,
    ) -> Result<Option<u64>, LoadError> {
        self.reader.feed(bytes)?;
        while let Some(message) = self.reader.next_message()? {
            if self.take(message, output)? {
                return Ok(Some(self.loaded));
            }
        }
        Ok(None)
    }

    // Takes a message, and gives whether the load is over.
    fn take(&mut self, message: ReceivedMessage, output: &mut Vec<u8>) -> Result<bool, LoadError>
        ensures { self.new.reader ≡ self.old.reader }
    {
        let kind = message.format;
        match ServerMessage::decode(self.alloc, message)? {
            ServerMessage::CopyInResponse(_columns) => {
                encode_rows(self.rows, self.most, output)?;
                encode_frame(&CopyDone, output)?;
            }
            ServerMessage::CommandComplete(done) => self.loaded = done.rows_affected(),
            ServerMessage::ReadyForQuery(_status) => return Ok(true),
            ServerMessage::ErrorResponse(error) => return Err(LoadError::Server(error)),
            ServerMessage::NoticeResponse(_notice) => {}
            ServerMessage::ParameterStatus(_setting) => {}
            _other => return Err(LoadError::Unexpected(kind)),
        }
        Ok(false)
    }
}

/// Adds rows as messages with at most `most` bytes of data each. A refusal leaves the messages that
/// were added before it.
pub fn encode_rows(rows: &[u8], most: usize, output: &mut Vec<u8>) -> Result<(), Error>
    requires { 0 < most }
    // Tags and lengths cut what is added into CopyData messages, and their bodies joined are the rows.
    ensures ok { OnOk result (AddsCopyOf most rows.now output.old.items output.new.items) }
    ensures err { OnErr result (AddsFrontOf most rows.now output.old.items output.new.items) }
{
    let mut rest = rows;
    'parts: while !rest.is_empty() {
        let (part, after) = rest.split_at(rest.len().min(most));
        encode_frame(&CopyData(part), output)?;
        rest = after;
    }
    Ok(())
}
