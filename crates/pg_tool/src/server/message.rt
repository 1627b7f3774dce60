//! The words of a message: its name and its fields in the order of its body.

use crate::digits::Hex;
use crate::server::word::{SettingWord, ValueWord, push_list};
use pg_frames::frontend::ClientMessageRef;
use pg_server::frontend::{
    BindRef, CancelRequestRef, FirstMessageRef, FormatCodes, FrontendFault, FrontendMessageRef,
    FunctionCallRef, ParseRef, Settings, Target, TargetRef, Values,
};
use std::alloc::AllocError;

/// The version of the protocol that a Startup has, without the minor one.
const MAJOR_VERSION: u16 = 3;

/// Adds the line of a message: its words, or those of its fault.
pub fn push_line(
    message: Result<ClientMessageRef<'_>, FrontendFault>,
    output: &mut String,
) -> Result<(), AllocError> {
    push_words(message, output)?;
    output.push('\n')
}

fn push_words(
    message: Result<ClientMessageRef<'_>, FrontendFault>,
    output: &mut String,
) -> Result<(), AllocError> {
    match message {
        Ok(ClientMessageRef::First(message)) => push_first(message, output),
        Ok(ClientMessageRef::Tagged(message)) => push_tagged(message, output),
        Err(fault) => write!(output, "{fault}"),
    }
}

// The words of a first message.
fn push_first(message: FirstMessageRef<'_>, output: &mut String) -> Result<(), AllocError> {
    match message {
        FirstMessageRef::Startup { minor, settings } => push_startup(minor, settings, output),
        FirstMessageRef::CancelRequest(request) => push_cancel(request, output),
        FirstMessageRef::SslRequest => output.push_str("sslrequest"),
        FirstMessageRef::GssEncRequest => output.push_str("gssencrequest"),
    }
}

fn push_startup(minor: u16, settings: Settings<'_>, output: &mut String) -> Result<(), AllocError> {
    write!(output, "startup {MAJOR_VERSION}.{minor} ")?;
    push_list(
        settings.map(|(name, value)| SettingWord { name, value }),
        output,
    )
}

fn push_cancel(request: CancelRequestRef<'_>, output: &mut String) -> Result<(), AllocError> {
    let key = Hex(request.secret_key);
    write!(output, "cancelrequest {} {key}", request.process_id)
}

// The words of a message that has a tag.
fn push_tagged(message: FrontendMessageRef<'_>, output: &mut String) -> Result<(), AllocError> {
    match message {
        FrontendMessageRef::Bind(bind) => push_bind(bind, output),
        FrontendMessageRef::Close(target) => push_target("close", &target, output),
        FrontendMessageRef::CopyData(data) => push_bytes("copydata", data, output),
        FrontendMessageRef::CopyDone => output.push_str("copydone"),
        FrontendMessageRef::CopyFail(reason) => push_bytes("copyfail", reason, output),
        FrontendMessageRef::Describe(target) => push_target("describe", &target, output),
        FrontendMessageRef::Execute(execute) => {
            push_bytes("execute", execute.portal, output)?;
            write!(output, " {}", execute.limit.cast_signed())
        }
        FrontendMessageRef::Flush => output.push_str("flush"),
        FrontendMessageRef::FunctionCall(call) => push_call(call, output),
        FrontendMessageRef::Parse(parse) => push_parse(parse, output),
        FrontendMessageRef::PasswordPolymorphic(body) => push_bytes("password", body, output),
        FrontendMessageRef::Query(text) => push_bytes("query", text, output),
        FrontendMessageRef::Sync => output.push_str("sync"),
        FrontendMessageRef::Terminate => output.push_str("terminate"),
    }
}

// A name, and bytes.
fn push_bytes(name: &str, bytes: &[u8], output: &mut String) -> Result<(), AllocError> {
    write!(output, "{name} {}", Hex(bytes))
}

fn push_target(name: &str, target: &TargetRef<'_>, output: &mut String) -> Result<(), AllocError> {
    let letter = match target.target {
        Target::Statement => 'S',
        Target::Portal => 'P',
    };
    write!(output, "{name} {letter} {}", Hex(target.name))
}

fn push_bind(bind: BindRef<'_>, output: &mut String) -> Result<(), AllocError> {
    write!(output, "bind {} {} ", Hex(bind.portal), Hex(bind.statement))?;
    push_codes(bind.formats, output)?;
    output.push(' ')?;
    push_values(bind.values, output)?;
    output.push(' ')?;
    push_codes(bind.result_formats, output)
}

fn push_call(call: FunctionCallRef<'_>, output: &mut String) -> Result<(), AllocError> {
    write!(output, "functioncall {} ", call.object_id.0)?;
    push_codes(call.formats, output)?;
    output.push(' ')?;
    push_values(call.arguments, output)?;
    write!(output, " {}", call.result_format.cast_signed())
}

fn push_parse(parse: ParseRef<'_>, output: &mut String) -> Result<(), AllocError> {
    write!(
        output,
        "parse {} {} ",
        Hex(parse.statement),
        Hex(parse.query)
    )?;
    push_list(parse.types.map(|oid| oid.0), output)
}

// Format codes, as the signed numbers that the standard has.
fn push_codes(codes: FormatCodes<'_>, output: &mut String) -> Result<(), AllocError> {
    push_list(codes.map(|code| code.cast_signed()), output)
}

fn push_values(values: Values<'_>, output: &mut String) -> Result<(), AllocError> {
    push_list(values.map(|value| ValueWord(value)), output)
}
