//! Texts within a body, each ended by a NUL.

ghost use Rattle.std.specs.Prelude.{◌≡◌, ◌≤◌, length, drop, IfSome, IfNone, IfErr, true, false};
ghost use Rattle.std.specs.Str.{is_utf8};
ghost use Rattle.pg_base.specs.Reading.{HoldsNo, Text};
ghost use Rattle.pg_format.specs.Format.Parts.{until_nul};
ghost use Rattle.pg_format.specs.Format.Places.{EndsAfterNul, ReadsFrom};
ghost use Rattle.pg_format.specs.Format.Tests.{utf8};

use crate::ascii::is_ascii;
use crate::nul::find_nul;
use pg_base::ProtocolFault;
use std::str;

/// The text at the front of some bytes, and what follows its NUL. `None` where there is no NUL.
#[inline(always)]
pub fn split_text(bytes: &[u8]) -> Option<(&[u8], &[u8])>
    ensures found { IfSome result (λ split. Text bytes.now split.0.now split.1.now) }
    ensures none { IfNone result (HoldsNo 0 bytes.now) }
{
    let end = find_nul(bytes)?;
    Some((&bytes[..end], &bytes[end + 1..]))
}

/// The bytes as text, where they are UTF-8.
#[inline(always)]
pub fn utf8_text(bytes: &[u8]) -> Option<&str>
    ensures text { IfSome result (λ text. (text.now ≡ bytes.now) × (is_utf8 bytes.now ≡ true)) }
    ensures none { IfNone result (is_utf8 bytes.now ≡ false) }
{
    if is_utf8(bytes) {
        return Some(unsafe { str::from_utf8_unchecked(bytes) });
    }
    None
}

// Whether bytes are UTF-8. Most texts are ASCII, and few bytes, of which the standard library's test takes one by one.
#[inline(never)]
fn is_utf8(bytes: &[u8]) -> bool
    ensures { result ≡ is_utf8 bytes.now }
{
    if is_ascii(bytes) {
        return true;
    }
    match str::from_utf8(bytes) {
        Ok(_) => true,
        Err(_) => false,
    }
}

/// The text at an offset within a body, and the offset after its NUL. Refused with `MissingNul`
/// where there is no NUL.
pub fn text_at(body: &[u8], at: usize) -> Result<(&[u8], usize), ProtocolFault>
    requires { at ≤ length body.now }
    ensures found { ReadsFrom until_nul (λ text. text.now) body.now at result }
    ensures after { EndsAfterNul (λ text. text.now) body.now at result }
    ensures missing { IfErr result (until_nul.Breaks (length body.now) (drop at body.now)) }
{
    let Some((text, _)) = split_text(&body[at..]) else {
        return Err(ProtocolFault::MissingNul { at });
    };
    Ok((text, at + text.len() + 1))
}

/// The text at an offset within a body, as [`text_at`], and refused with `NotUtf8` where it isn't
/// UTF-8.
#[tactic(auto, using(crate::proofs::TextLemmas::not_utf8))]
pub fn str_at(body: &[u8], at: usize) -> Result<(&str, usize), ProtocolFault>
    requires { at ≤ length body.now }
    ensures found { ReadsFrom utf8 (λ text. text.now) body.now at result }
    ensures after { EndsAfterNul (λ text. text.now) body.now at result }
    ensures broken { IfErr result (utf8.Breaks (length body.now) (drop at body.now)) }
{
    let (text, after) = text_at(body, at)?;
    let text = utf8_text(text).ok_or(ProtocolFault::NotUtf8)?;
    Ok((text, after))
}
