//! The names of prepared statements and portals, each kept as a number.

ghost use Rattle.std.specs.Prelude.{Some, ◌≡◌, ◌==◌, ℕ, ◌+◌, ◌<◌, ◌≤◌, ◌^◌, List, [], ◌∷◌, ◌++◌, length, decimal, OnOk, OnErr, IsOkUnless, IfSome, IfNone, vec_capacity};
ghost use Rattle.pg_base.specs.declared.error.Error.TheVariants.{OutOfMemory};
ghost use Rattle.pg_base.specs.Id.{IsNameOf, name, next_id, named, statement_prefix, portal_prefix, max_id, statement_text, portal_text};
ghost use Rattle.pg_base.specs.Sink.{HasRoom};
ghost use Rattle.pg_base.specs.Encode.{IsShort};

use crate::error::Error;
use crate::io::Sink;
use crate::io::decimal::put_decimal;
use std::alloc::AllocError;
use std::fmt;
use std::marker::Model;

const STATEMENT_PREFIX: &str = "sqlx_s_";

const PORTAL_PREFIX: &str = "sqlx_p_";

/// A prepared statement: 0 is the unnamed one, and a number from 1 to 4294967295 a named one.
#[derive(Clone, Copy, Debug, PartialEq, Eq)]
pub struct StatementId(u32);

impl Model for StatementId {
    ghost Value = { ℕ };

    ghost view = { λ id. id.0 };

    ghost inverse = { λ n. record { 0 = n } };
}

impl StatementId {
    /// The unnamed one.
    pub const UNNAMED: Self = StatementId(0);

    /// The first named one.
    pub const NAMED_START: Self = StatementId(1);

    /// The statement of that number; 0 is the unnamed one.
    pub fn from_number(number: u32) -> Self
        ensures { result ≡ number }
    {
        StatementId(number)
    }

    /// The number of the statement, 0 for the unnamed one.
    pub fn number(&self) -> u32
        ensures { result ≡ self.now }
    {
        self.0
    }

    /// The next named statement, and 1 after the last. The unnamed one stays.
    pub fn next(&self) -> Self
        ensures { result ≡ next_id self.now }
    {
        StatementId(next_number(self.0))
    }

    /// The length of what [`put_name_with_nul`](Self::put_name_with_nul) writes, in bytes.
    pub fn name_len(&self) -> usize
        ensures { result ≡ length (name statement_prefix self.now) + 1 }
    {
        name_len(STATEMENT_PREFIX, self.0)
    }

    /// Adds the name and a NUL to the buffer. `OutOfMemory`, only where the room was short, leaves
    /// its bytes as they were.
    pub fn put_name_with_nul(&self, buf: &mut Vec<u8>) -> Result<(), Error>
        ensures ok { OnOk result (buf.new.items ≡ buf.old.items ++ statement_text self.now) }
        ensures err { OnErr result (buf.new.items ≡ buf.old.items) }
        ensures memory { IsOkUnless result OutOfMemory }
        ensures room { OnErr result (IsShort buf.old (length (statement_text self.now))) }
        ensures capacity { vec_capacity buf.old ≤ vec_capacity buf.new }
        ensures range { self.now ≤ max_id }
    {
        put_name_with_nul(STATEMENT_PREFIX, self.0, buf)?;
        Ok(())
    }

    /// Writes the name and a NUL, in room that is there.
    #[inline(always)]
    pub fn put_name<S: Sink>(&self, sink: &mut S)
        requires { HasRoom (S.capacity sink.old) (S.written sink.old) (statement_text self.now) }
        ensures written { S.written sink.new ≡ S.written sink.old ++ statement_text self.now }
        ensures capacity { S.capacity sink.old ≤ S.capacity sink.new }
        ensures loan { S.loan sink.new ≡ S.loan sink.old }
        ensures range { self.now ≤ max_id }
    {
        put_name(STATEMENT_PREFIX, self.0, sink)
    }

    /// The name of a named statement, to be printed.
    pub fn display(&self) -> Option<DisplayId>
        ensures named { IfSome result (IsNameOf statement_prefix self.now) }
        ensures unnamed { IfNone result (self.now ≡ 0) }
    {
        if self.0 == 0 {
            return None;
        }
        Some(DisplayId {
            prefix: STATEMENT_PREFIX,
            number: self.0,
        })
    }
}

/// A portal: 0 is the unnamed one, and a number from 1 to 4294967295 a named one.
#[derive(Clone, Copy, Debug, PartialEq, Eq)]
pub struct PortalId(u32);

impl Model for PortalId {
    ghost Value = { ℕ };

    ghost view = { λ id. id.0 };

    ghost inverse = { λ n. record { 0 = n } };
}

impl PortalId {
    /// The unnamed one.
    pub const UNNAMED: Self = PortalId(0);

    /// The first named one.
    pub const NAMED_START: Self = PortalId(1);

    /// The portal of that number; 0 is the unnamed one.
    pub fn from_number(number: u32) -> Self
        ensures { result ≡ number }
    {
        PortalId(number)
    }

    /// The number of the portal, 0 for the unnamed one.
    pub fn number(&self) -> u32
        ensures { result ≡ self.now }
    {
        self.0
    }

    /// The next named portal, and 1 after the last. The unnamed one stays.
    pub fn next(&self) -> Self
        ensures { result ≡ next_id self.now }
    {
        PortalId(next_number(self.0))
    }

    /// The length of what [`put_name_with_nul`](Self::put_name_with_nul) writes, in bytes.
    pub fn name_len(&self) -> usize
        ensures { result ≡ length (name portal_prefix self.now) + 1 }
    {
        name_len(PORTAL_PREFIX, self.0)
    }

    /// Adds the name and a NUL to the buffer. `OutOfMemory`, only where the room was short, leaves
    /// its bytes as they were.
    pub fn put_name_with_nul(&self, buf: &mut Vec<u8>) -> Result<(), Error>
        ensures ok { OnOk result (buf.new.items ≡ buf.old.items ++ portal_text self.now) }
        ensures err { OnErr result (buf.new.items ≡ buf.old.items) }
        ensures memory { IsOkUnless result OutOfMemory }
        ensures room { OnErr result (IsShort buf.old (length (portal_text self.now))) }
        ensures capacity { vec_capacity buf.old ≤ vec_capacity buf.new }
        ensures range { self.now ≤ max_id }
    {
        put_name_with_nul(PORTAL_PREFIX, self.0, buf)?;
        Ok(())
    }

    /// Writes the name and a NUL, in room that is there.
    #[inline(always)]
    pub fn put_name<S: Sink>(&self, sink: &mut S)
        requires { HasRoom (S.capacity sink.old) (S.written sink.old) (portal_text self.now) }
        ensures written { S.written sink.new ≡ S.written sink.old ++ portal_text self.now }
        ensures capacity { S.capacity sink.old ≤ S.capacity sink.new }
        ensures loan { S.loan sink.new ≡ S.loan sink.old }
        ensures range { self.now ≤ max_id }
    {
        put_name(PORTAL_PREFIX, self.0, sink)
    }
}

/// A name without its NUL.
#[derive(Drop)]
pub struct DisplayId {
    prefix: &'static str,
    number: u32,
}

impl Model for DisplayId {
    ghost Value = { List ℕ };

    ghost view = { λ id. id.prefix.now ++ decimal id.number };
}

impl fmt::Display for DisplayId {
    ghost output = { λ text. Some text };

    fn fmt<W: fmt::Write>(&self, f: &mut fmt::Formatter<W>) -> fmt::Result {
        let prefix = self.prefix;
        let number = self.number;
        write!(f, "{prefix}{number}")
    }
}

fn next_number(number: u32) -> u32
    ensures { result ≡ next_id number }
{
    match number {
        0 => 0,
        u32::MAX => 1,
        _ => number + 1,
    }
}

#[tactic(auto, using(crate::proofs::IdLemmas::name_length))]
fn name_len(prefix: &str, number: u32) -> usize
    requires { length prefix.now < 100 }
    ensures { result ≡ length (name prefix.now number) + 1 }
{
    // The logarithm is taken of every number, so that no branch stands before it.
    let digits = number.max(1).ilog10() as usize + 1;
    if number == 0 {
        1
    } else {
        prefix.len() + digits + 1
    }
}

#[inline]
fn put_name_with_nul(prefix: &str, number: u32, buf: &mut Vec<u8>) -> Result<(), AllocError>
    requires { length prefix.now < 100 }
    ensures ok { OnOk result (buf.new.items ≡ buf.old.items ++ named prefix.now number) }
    ensures err { OnErr result (buf.new.items ≡ buf.old.items) }
    ensures room { OnErr result (IsShort buf.old (length (named prefix.now number))) }
    ensures capacity { vec_capacity buf.old ≤ vec_capacity buf.new }
{
    buf.reserve(name_len(prefix, number))?;
    put_name(prefix, number, buf);
    Ok(())
}

// Inlined, so that the prefix is known where it is copied.
#[inline(always)]
fn put_name<S: Sink>(prefix: &str, number: u32, sink: &mut S)
    requires { HasRoom (S.capacity sink.old) (S.written sink.old) (named prefix.now number) }
    ensures written { S.written sink.new ≡ S.written sink.old ++ named prefix.now number }
    ensures capacity { S.capacity sink.old ≤ S.capacity sink.new }
    ensures loan { S.loan sink.new ≡ S.loan sink.old }
{
    if number != 0 {
        sink.put_slice(prefix.as_bytes());
        put_decimal(number, sink);
    }
    sink.put_u8(0);
}
