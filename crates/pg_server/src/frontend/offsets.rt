//! The parts of a body, each with the offset after it.

ghost use Rattle.std.specs.Prelude.{◌≡◌, ◌-◌, ◌≤◌, length, IfOk, IfErr};
ghost use Rattle.pg_format.specs.Format.Parts.{until_nul, be_u16, be_u32, be_i32, bytes_of};
ghost use Rattle.pg_server.specs.declared.frontend.error.FrontendFault.TheVariants.{Short};
ghost use Rattle.pg_server.specs.Frontend.Message.{GivesAt};
ghost use Rattle.pg_server.specs.Frontend.Error.{TrailsAt};

use crate::frontend::error::FrontendFault;
use pg_base::io;
use pg_format::text;

/// So many bytes from an offset within a body on. Refused with `Short` where fewer are there.
pub fn bytes_at(body: &[u8], at: usize, needed: usize) -> Result<(&[u8], usize), FrontendFault>
    requires { at ≤ length body.now }
    ensures { GivesAt (bytes_of needed) (λ bytes. bytes.now) body.now at result }
{
    match io::bytes_at(body, at, needed) {
        Ok(bytes) => Ok((bytes, at + needed)),
        Err(_) => Err(short(body, at, needed)),
    }
}

/// The number of two bytes at an offset within a body, or `Short`.
pub fn u16_at(body: &[u8], at: usize) -> Result<(u16, usize), FrontendFault>
    requires { at ≤ length body.now }
    ensures { GivesAt be_u16 (λ n. n) body.now at result }
{
    match io::u16_at(body, at) {
        Ok(n) => Ok((n, at + 2)),
        Err(_) => Err(short(body, at, 2)),
    }
}

/// The number of four bytes at an offset within a body, or `Short`.
pub fn u32_at(body: &[u8], at: usize) -> Result<(u32, usize), FrontendFault>
    requires { at ≤ length body.now }
    ensures { GivesAt be_u32 (λ n. n) body.now at result }
{
    match io::u32_at(body, at) {
        Ok(n) => Ok((n, at + 4)),
        Err(_) => Err(short(body, at, 4)),
    }
}

/// The signed number of four bytes at an offset within a body, or `Short`.
pub fn i32_at(body: &[u8], at: usize) -> Result<(i32, usize), FrontendFault>
    requires { at ≤ length body.now }
    ensures { GivesAt be_i32 (λ z. z) body.now at result }
{
    match io::i32_at(body, at) {
        Ok(z) => Ok((z, at + 4)),
        Err(_) => Err(short(body, at, 4)),
    }
}

/// The text at an offset within a body, without its NUL. Refused with `MissingNul` where there is no NUL.
pub fn text_at(body: &[u8], at: usize) -> Result<(&[u8], usize), FrontendFault>
    requires { at ≤ length body.now }
    ensures { GivesAt until_nul (λ text. text.now) body.now at result }
{
    match text::text_at(body, at) {
        Ok(found) => Ok(found),
        Err(_) => Err(FrontendFault::MissingNul { at }),
    }
}

/// That the body ends at an offset, or `TrailingBytes`.
pub fn end_at(body: &[u8], at: usize) -> Result<(), FrontendFault>
    requires { at ≤ length body.now }
    ensures end { IfOk result (λ _. at ≡ length body.now) }
    ensures trailing { IfErr result (TrailsAt body.now at) }
{
    if at < body.len() {
        return Err(FrontendFault::TrailingBytes { at });
    }
    Ok(())
}

// That fewer bytes than are needed follow an offset.
fn short(body: &[u8], at: usize, needed: usize) -> FrontendFault
    requires { at ≤ length body.now }
    ensures { result ≡ Short at needed (length body.now - at) }
{
    FrontendFault::Short {
        at,
        needed,
        got: body.len() - at,
    }
}
