//! What a command has done, and what only passes through.

ghost use Rattle.std.specs.Prelude.{◌≡◌};
ghost use Rattle.pg_server.specs.Backend.Copy.{direction_tag};
ghost use Rattle.pg_server.specs.Backend.Message as messages;
ghost use Rattle.pg_c.specs.Server.{PutsServerMessage, PutsByTag};
ghost use Rattle.pg_c.specs.Server.Letters.{direction_of};
ghost use Rattle.pg_c.specs.Server.Messages.{copy_answer_of, result_of};

use crate::put::prepared::PgmsgValue;
use crate::refusal::UNKNOWN_MESSAGE_TYPE;
use crate::server::put;
use pg_server::backend::{
    AsOutboundItem, CopyDirection, OutboundCommandComplete, OutboundCopyResponse,
    OutboundFunctionCallResponse, OutboundRaw,
};

/// A CommandComplete: a command has ended. `command` is its tag, as `INSERT 0 1`; a NUL in it is refused.
#[unsafe(no_mangle)]
pub extern "C" fn pgmsg_put_command_complete(command: &[u8], out: &mut [u8]) -> isize
    ensures { PutsServerMessage (messages.CommandComplete command.now) out.old out.new result }
{
    put(&OutboundCommandComplete { command }, out)
}

/// Where the data of a COPY goes: to the server by a CopyInResponse, whose tag is `G`, from it by a
/// CopyOutResponse, `H`, and both ways by a CopyBothResponse, `W`; of other tags it is refused with
/// PGMSG_UNKNOWN_MESSAGE_TYPE. `format` is that of the data as a whole, and `codes` are those of the
/// columns, at most 32767, else it is refused with PGMSG_TOO_MANY: 0 is text and 1 binary.
#[unsafe(no_mangle)]
pub extern "C" fn pgmsg_put_copy_response(
    tag: u8,
    format: i8,
    codes: &[i16],
    out: &mut [u8],
) -> isize
    ensures { PutsByTag direction_tag (copy_answer_of format codes.now) tag out.old out.new result }
{
    match direction_of(tag) {
        Some(direction) => {
            let response = OutboundCopyResponse {
                direction,
                format,
                format_codes: codes,
            };
            put(&response, out)
        }
        None => UNKNOWN_MESSAGE_TYPE as isize,
    }
}

fn direction_of(tag: u8) -> Option<CopyDirection>
    ensures { result ≡ direction_of tag }
{
    match tag {
        b'G' => Some(CopyDirection::In),
        b'H' => Some(CopyDirection::Out),
        b'W' => Some(CopyDirection::Both),
        _ => None,
    }
}

/// A FunctionCallResponse: the result of a function that was called, or NULL.
#[unsafe(no_mangle)]
#[tactic(auto, using(crate::proofs::ServerListsLemmas::same_value))]
pub extern "C" fn pgmsg_put_function_result(value: &[u8], is_null: bool, out: &mut [u8]) -> isize
    ensures { PutsServerMessage (result_of is_null value.now) out.old out.new result }
{
    let value = PgmsgValue {
        bytes: value,
        is_null,
    }
    .as_item();
    put(&OutboundFunctionCallResponse { value }, out)
}

/// A message with any tag and any body: what only passes through, or what this library doesn't know.
#[unsafe(no_mangle)]
pub extern "C" fn pgmsg_put_frame(tag: u8, body: &[u8], out: &mut [u8]) -> isize
    ensures { PutsServerMessage (messages.Raw tag body.now) out.old out.new result }
{
    put(&OutboundRaw { tag, body }, out)
}
