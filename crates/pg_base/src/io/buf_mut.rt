//! Parts of a message, written at the end of a buffer.

ghost use Rattle.std.specs.Prelude.{◌≡◌, ℕ, ◌+◌, ◌-◌, ◌≤◌, List, ◌++◌, take, OnOk, OnErr, IfErr, IsOkUnless, vec_len, vec_capacity};
ghost use Rattle.std.specs.Fn.{FnOnceTakesAtMut, FnOnceReturnsAtMut};
ghost use Rattle.pg_base.specs.declared.error.Error.TheVariants.{OutOfMemory};
ghost use Rattle.pg_base.specs.Id.{max_id, statement_text, portal_text};
ghost use Rattle.pg_base.specs.BufMut.{IsCallableOn, OnlyAppends, AddsPrefixed, IsRefusedFor, KeepsRoom, LacksRoom, SetsLength, IsWhyTakenBack, four_zeros};
ghost use Rattle.pg_base.specs.Encode.{IsShort};

use crate::error::{Error, ProtocolFault};
use crate::io::{MAX_LENGTH, PortalId, StatementId};
use std::alloc::AllocError;

// The bytes of a length field.
const LENGTH_SIZE: usize = 4;

/// Writes parts of a message at the end of a buffer.
///
/// Every refusal leaves the bytes of the buffer as they were, and no call gives room back that the
/// buffer had.
pub trait PgBufMutExt {
    /// The bytes of the buffer.
    ghost bytes: { Self → List ℕ };
    /// How many bytes it holds without asking for memory.
    ghost capacity: { Self → ℕ };

    /// Adds four bytes of length, which counts itself and what the closure then appends, and that.
    ///
    /// Refused with `OutOfMemory` where the four bytes found no room, and then the closure isn't
    /// called; with what the closure answered; or with `MessageTooLong` where the length would pass
    /// 2147483647.
    fn put_length_prefixed<F>(&mut self, write_contents: F) -> Result<(), Error>
    where
        F: FnOnce(&mut Vec<u8>) -> Result<(), Error> + Drop,
        requires callable { IsCallableOn F.FnOnce write_contents (bytes self.old) }
        requires appends { OnlyAppends F.FnOnce write_contents (bytes self.old) }
        ensures ok { OnOk result (AddsPrefixed F.FnOnce write_contents bytes self.old self.new) }
        ensures err { OnErr result (bytes self.new ≡ bytes self.old) }
        ensures why { IsRefusedFor F.FnOnce write_contents bytes capacity self.old self.new result }
        ensures capacity { KeepsRoom F.FnOnce write_contents bytes capacity self.old self.new };

    /// Adds the name of a statement and a NUL. Refused with `OutOfMemory`, only where the room was
    /// short.
    fn put_statement_name(&mut self, id: StatementId) -> Result<(), Error>
        ensures ok { OnOk result (bytes self.new ≡ bytes self.old ++ statement_text id) }
        ensures err { OnErr result (bytes self.new ≡ bytes self.old) }
        ensures memory { IsOkUnless result OutOfMemory }
        ensures room { OnErr result (LacksRoom bytes capacity self.old (statement_text id)) }
        ensures capacity { capacity self.old ≤ capacity self.new }
        ensures range { id ≤ max_id };

    /// Adds the name of a portal and a NUL. Refused with `OutOfMemory`, only where the room was
    /// short.
    fn put_portal_name(&mut self, id: PortalId) -> Result<(), Error>
        ensures ok { OnOk result (bytes self.new ≡ bytes self.old ++ portal_text id) }
        ensures err { OnErr result (bytes self.new ≡ bytes self.old) }
        ensures memory { IsOkUnless result OutOfMemory }
        ensures room { OnErr result (LacksRoom bytes capacity self.old (portal_text id)) }
        ensures capacity { capacity self.old ≤ capacity self.new }
        ensures range { id ≤ max_id };
}

impl PgBufMutExt for Vec<u8> {
    ghost bytes = { λ buf. buf.items };

    ghost capacity = { λ buf. vec_capacity buf };

    fn put_length_prefixed<F>(&mut self, write_contents: F) -> Result<(), Error>
    where
        F: FnOnce(&mut Vec<u8>) -> Result<(), Error> + Drop,
    {
        let offset = self.len();
        put_zeros(self)?;
        let written = call(write_contents, self);
        finish(self, offset, written)
    }

    fn put_statement_name(&mut self, id: StatementId) -> Result<(), Error> {
        id.put_name_with_nul(self)
    }

    fn put_portal_name(&mut self, id: PortalId) -> Result<(), Error> {
        id.put_name_with_nul(self)
    }
}

// Adds the bytes in which the length is then set.
fn put_zeros(buf: &mut Vec<u8>) -> Result<(), AllocError>
    ensures ok { OnOk result (buf.new.items ≡ buf.old.items ++ four_zeros) }
    ensures err { OnErr result (buf.new.items ≡ buf.old.items) }
    ensures same { OnErr result (vec_capacity buf.new ≡ vec_capacity buf.old) }
    ensures room { OnErr result (IsShort buf.old 4) }
    ensures capacity { vec_capacity buf.old ≤ vec_capacity buf.new }
{
    buf.reserve(LENGTH_SIZE)?;
    let added = buf.extend_from_slice(&[0; LENGTH_SIZE]);
    prove!(added.is_ok());
    Ok(())
}

fn call<F>(write_contents: F, buf: &mut Vec<u8>) -> Result<(), Error>
where
    F: FnOnce(&mut Vec<u8>) -> Result<(), Error>,
    requires { FnOnceTakesAtMut F.FnOnce write_contents buf.old }
    ensures { FnOnceReturnsAtMut F.FnOnce write_contents buf.old result buf.new }
{
    write_contents(buf)
}

// Sets the length before what was written, or takes both back.
fn finish(buf: &mut Vec<u8>, offset: usize, written: Result<(), Error>) -> Result<(), Error>
    requires { offset + 4 ≤ vec_len buf.old }
    ensures ok { OnOk result ((written ≡ Ok tt) × SetsLength offset buf.old buf.new) }
    ensures err { OnErr result (buf.new.items ≡ take offset buf.old.items) }
    ensures capacity { vec_capacity buf.old ≤ vec_capacity buf.new }
    ensures why { IfErr result (IsWhyTakenBack written (vec_len buf.old - offset)) }
{
    let size = buf.len() - offset;
    let refused = match written {
        Err(error) => Some(error),
        Ok(()) if size > MAX_LENGTH => Some(ProtocolFault::MessageTooLong(size).into()),
        Ok(()) => None,
    };
    if let Some(error) = refused {
        buf.truncate(offset);
        return Err(error);
    }
    buf[offset..offset + LENGTH_SIZE].copy_from_slice(&(size as u32).to_be_bytes());
    Ok(())
}
