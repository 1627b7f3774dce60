//! What a line of `encode` names: one message to the server.

use crate::client::word::{formats_of, oids_of};
use crate::digits::{hex_array, hex_bytes};
use crate::fault::Fault;
use crate::numbers::{u16_of, u32_of};
use pg_base::io::{CopyData, CopyDone, Oid, PgValueFormat, PortalId, StatementId};
use pg_send::message::{
    Bind, Close, CopyFail, Describe, Execute, Flush, Parse, Password, Query, SaslInitialResponse,
    SaslResponse, Sync, TaggedMessage, Terminate,
};
use std::alloc::Global;

/// What a line names, with all that its message borrows.
#[derive(Drop)]
pub enum Command<'a> {
    Bind {
        portal: u32,
        statement: u32,
        values: BindValues,
    },
    Cleartext(&'a str),
    Close(NumberedTarget),
    CopyData(Vec<u8>),
    CopyDone,
    CopyFail(CopyFail),
    Describe(NumberedTarget),
    Execute {
        portal: u32,
        limit: u32,
    },
    Flush,
    Md5([u8; 16]),
    Parse {
        statement: u32,
        query: &'a str,
        param_types: Vec<Oid>,
    },
    Query(&'a str),
    Sasl(&'a str),
    SaslInit {
        plus: bool,
        response: &'a str,
    },
    Sync,
    Terminate,
}

/// The values of a Bind, and the formats of them and of the result.
#[derive(Drop)]
pub struct BindValues {
    pub formats: Vec<PgValueFormat>,
    pub num_params: u16,
    pub params: Vec<u8>,
    pub result_formats: Vec<PgValueFormat>,
}

/// A statement or a portal, by its number.
#[derive(Clone, Copy)]
pub enum NumberedTarget {
    Statement(u32),
    Portal(u32),
}

/// The command that a line spells, where it fits a form.
pub fn command_of(alloc: Global, line: &str) -> Result<Option<Command<'_>>, Fault> {
    let Some((name, rest)) = line.split_once(' ') else {
        return Ok(plain_command(line));
    };
    match name {
        "bind" => bind_of(alloc, rest),
        "copydata" => copy_data_of(alloc, rest),
        "copyfail" => copy_fail_of(alloc, rest),
        "parse" => parse_of(alloc, rest),
        _ => Ok(small_command(name, rest)),
    }
}

// A command that needs no memory.
fn small_command<'a>(name: &str, rest: &'a str) -> Option<Command<'a>> {
    match name {
        "close" => close_of(rest),
        "describe" => describe_of(rest),
        "execute" => execute_of(rest),
        "md5" => md5_of(rest),
        "password" => Some(Command::Cleartext(rest)),
        "query" => Some(Command::Query(rest)),
        "sasl" => Some(Command::Sasl(rest)),
        "saslinit" => sasl_init_of(rest),
        _ => None,
    }
}

/// The message that a command names.
pub fn message_of<'a>(command: &'a Command<'a>) -> TaggedMessage<'a> {
    match command {
        Command::Bind {
            portal,
            statement,
            values,
        } => bind(*portal, *statement, values),
        Command::Cleartext(text) => TaggedMessage::Password(Password::Cleartext(text)),
        Command::Close(target) => close(*target),
        Command::CopyData(bytes) => TaggedMessage::CopyData(CopyData(bytes.as_slice())),
        Command::CopyDone => TaggedMessage::CopyDone(CopyDone),
        Command::CopyFail(fail) => TaggedMessage::CopyFail(fail),
        Command::Describe(target) => describe(*target),
        Command::Execute { portal, limit } => TaggedMessage::Execute(Execute {
            portal: PortalId::from_number(*portal),
            limit: *limit,
        }),
        Command::Flush => TaggedMessage::Flush(Flush),
        Command::Md5(digest) => TaggedMessage::Password(Password::Md5 { digest: *digest }),
        Command::Parse {
            statement,
            query,
            param_types,
        } => TaggedMessage::Parse(Parse {
            statement: StatementId::from_number(*statement),
            query,
            param_types: param_types.as_slice(),
        }),
        Command::Query(text) => TaggedMessage::Query(Query(text)),
        Command::Sasl(text) => TaggedMessage::SaslResponse(SaslResponse(text)),
        Command::SaslInit { plus, response } => {
            TaggedMessage::SaslInitialResponse(SaslInitialResponse {
                response,
                plus: *plus,
            })
        }
        Command::Sync => TaggedMessage::Sync(Sync),
        Command::Terminate => TaggedMessage::Terminate(Terminate),
    }
}

fn bind(portal: u32, statement: u32, values: &BindValues) -> TaggedMessage<'_> {
    TaggedMessage::Bind(Bind {
        portal: PortalId::from_number(portal),
        statement: StatementId::from_number(statement),
        formats: values.formats.as_slice(),
        num_params: values.num_params,
        params: values.params.as_slice(),
        result_formats: values.result_formats.as_slice(),
    })
}

fn close<'a>(target: NumberedTarget) -> TaggedMessage<'a> {
    TaggedMessage::Close(match target {
        NumberedTarget::Statement(number) => Close::Statement(StatementId::from_number(number)),
        NumberedTarget::Portal(number) => Close::Portal(PortalId::from_number(number)),
    })
}

fn describe<'a>(target: NumberedTarget) -> TaggedMessage<'a> {
    TaggedMessage::Describe(match target {
        NumberedTarget::Statement(number) => Describe::Statement(StatementId::from_number(number)),
        NumberedTarget::Portal(number) => Describe::Portal(PortalId::from_number(number)),
    })
}

// A command without fields.
fn plain_command(line: &str) -> Option<Command<'_>> {
    match line {
        "copydone" => Some(Command::CopyDone),
        "flush" => Some(Command::Flush),
        "sync" => Some(Command::Sync),
        "terminate" => Some(Command::Terminate),
        _ => None,
    }
}

// `PORTAL STATEMENT FORMATS COUNT HEX FORMATS`
fn bind_of(alloc: Global, line: &str) -> Result<Option<Command<'_>>, Fault> {
    let Some((portal, statement, rest)) = three_words(line) else {
        return Ok(None);
    };
    let (Some(portal), Some(statement)) = (u32_of(portal), u32_of(statement)) else {
        return Ok(None);
    };
    let Some(values) = values_of(alloc, rest)? else {
        return Ok(None);
    };
    Ok(Some(Command::Bind {
        portal,
        statement,
        values,
    }))
}

// `FORMATS COUNT HEX FORMATS`
fn values_of(alloc: Global, line: &str) -> Result<Option<BindValues>, Fault> {
    let Some((formats, count, rest)) = three_words(line) else {
        return Ok(None);
    };
    let Some((params, result_formats)) = rest.split_once(' ') else {
        return Ok(None);
    };
    let (Some(formats), Some(num_params)) = (formats_of(alloc, formats)?, u16_of(count)) else {
        return Ok(None);
    };
    let (Some(params), Some(result_formats)) = (
        hex_bytes(alloc, params)?,
        formats_of(alloc, result_formats)?,
    ) else {
        return Ok(None);
    };
    Ok(Some(BindValues {
        formats,
        num_params,
        params,
        result_formats,
    }))
}

// The last is the rest of the line.
fn three_words(line: &str) -> Option<(&str, &str, &str)> {
    let (first, rest) = line.split_once(' ')?;
    let (second, third) = rest.split_once(' ')?;
    Some((first, second, third))
}

fn copy_data_of(alloc: Global, word: &str) -> Result<Option<Command<'_>>, Fault> {
    match hex_bytes(alloc, word)? {
        Some(bytes) => Ok(Some(Command::CopyData(bytes))),
        None => Ok(None),
    }
}

fn copy_fail_of(alloc: Global, reason: &str) -> Result<Option<Command<'_>>, Fault> {
    let reason = String::from_str(alloc, reason)?;
    Ok(Some(Command::CopyFail(CopyFail::new(reason))))
}

fn close_of(line: &str) -> Option<Command<'_>> {
    Some(Command::Close(target_of(line)?))
}

fn describe_of(line: &str) -> Option<Command<'_>> {
    Some(Command::Describe(target_of(line)?))
}

// `S NUMBER` or `P NUMBER`
fn target_of(line: &str) -> Option<NumberedTarget> {
    let (letter, number) = line.split_once(' ')?;
    let number = u32_of(number)?;
    match letter {
        "S" => Some(NumberedTarget::Statement(number)),
        "P" => Some(NumberedTarget::Portal(number)),
        _ => None,
    }
}

// `PORTAL LIMIT`
fn execute_of(line: &str) -> Option<Command<'_>> {
    let (portal, limit) = line.split_once(' ')?;
    Some(Command::Execute {
        portal: u32_of(portal)?,
        limit: u32_of(limit)?,
    })
}

// `STATEMENT OIDS TEXT`
fn parse_of(alloc: Global, line: &str) -> Result<Option<Command<'_>>, Fault> {
    let Some((statement, types, query)) = three_words(line) else {
        return Ok(None);
    };
    let (Some(statement), Some(param_types)) = (u32_of(statement), oids_of(alloc, types)?) else {
        return Ok(None);
    };
    Ok(Some(Command::Parse {
        statement,
        query,
        param_types,
    }))
}

// `0 TEXT` or `1 TEXT`
fn sasl_init_of(line: &str) -> Option<Command<'_>> {
    let (plus, response) = line.split_once(' ')?;
    let plus = match plus {
        "0" => false,
        "1" => true,
        _ => return None,
    };
    Some(Command::SaslInit { plus, response })
}

// 32 hexadecimal digits
fn md5_of(word: &str) -> Option<Command<'_>> {
    Some(Command::Md5(hex_array(word)?))
}
