//! The result of a function that was called.

ghost use Rattle.std.specs.Prelude.{◌≤◌, length, option_copied};
ghost use Rattle.pg_format.specs.Format.{ReadsAs};
ghost use Rattle.pg_format.specs.Messages.{function_call_response};

use crate::message::cell_at;
use pg_base::ProtocolFault;
use pg_base::io::MAX_BODY;

/// The result of a function that was called, borrowed from the body of its message. Documentation:
/// "Message Formats", FunctionCallResponse (B).
#[derive(Clone, Copy, Debug, PartialEq, Eq)]
pub struct FunctionCallResponseRef<'a> {
    /// The result; `None` for NULL.
    pub value: Option<&'a [u8]>,
}

impl<'a> FunctionCallResponseRef<'a> {
    /// Reads a body of at most [`MAX_BODY`] bytes. Refused with `Short` where it ends before the result.
    pub fn read(body: &'a [u8]) -> Result<FunctionCallResponseRef<'a>, ProtocolFault>
        requires { length body.now ≤ MAX_BODY }
        ensures { ReadsAs function_call_response (λ it. option_copied it.value) body.now result }
    {
        let (value, _end) = cell_at(body, 0)?;
        Ok(FunctionCallResponseRef { value })
    }
}
