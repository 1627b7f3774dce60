//! Bytes that stand as base64 in the data of a SASL exchange.

ghost use Rattle.std.specs.Prelude.{◌≡◌, ◌≢◌, ◌≤◌, ◌<◌, ◌^◌, ◌==◌, ◌↔◌, [], Some, None, true, length, IfOk, IfErr, OnErr, IfSome, IfNone};
ghost use Rattle.pg_base.specs.declared.error.ProtocolFault.TheVariants.{Base64};
ghost use Rattle.pg_format.specs.Sasl.{base64_of};
ghost use Rattle.pg_receive.specs.Authentication.Base64Bytes.{IsBase64, IsWhole};

use base64::engine::general_purpose::{STANDARD, STANDARD_NO_PAD};
use pg_base::ProtocolFault;
use std::alloc::{AllocError, Global};
use std::marker::Model;

// A text is tested in pieces of so many bytes, which stand for three quarters as many.
const PIECE_TEXT: usize = 64;

const PIECE_BYTES: usize = 48;

/// Bytes that stand as base64 in the data of a SASL exchange, borrowed. The text was tested when it was
/// read, without memory; the bytes are made where they are copied.
///
/// In a contract it is the bytes.
#[derive(Drop)]
pub struct Base64Bytes<'a> {
    text: &'a [u8],
    len: usize,
}

impl<'a> Model for Base64Bytes<'a> {
    ghost use Rattle.std.specs.Prelude.{ℕ, List, ◌<◌, ◌^◌};
    ghost use Rattle.pg_receive.specs.Authentication.SaslItems.{base64_value};
    ghost use Rattle.pg_receive.specs.Authentication.Base64Bytes.{IsBase64};

    ghost Value = { List ℕ };

    ghost view = { λ bytes. base64_value bytes.text.now };

    ghost invariant = { λ bytes. IsBase64 bytes.text.now bytes.len × (bytes.len < 2 ^ 63) };
}

impl<'a> Base64Bytes<'a> {
    /// No bytes.
    #[tactic(auto, using(crate::proofs::AuthenticationBase64BytesLemmas::none_in_nothing))]
    pub(crate) fn empty() -> Base64Bytes<'a>
        ensures { result ≡ [] }
    {
        Base64Bytes { text: &[], len: 0 }
    }

    /// The bytes that a text is the base64 of.
    pub(crate) fn read(text: &'a [u8]) -> Result<Base64Bytes<'a>, ProtocolFault>
        ensures bytes { IfOk result (λ bytes. base64_of text.now ≡ Some bytes) }
        ensures fault { IfErr result (λ fault. (base64_of text.now ≡ None) × (fault ≡ Base64)) }
    {
        match decoded_len(text) {
            Some(len) => Ok(Base64Bytes { text, len }),
            None => Err(ProtocolFault::Base64),
        }
    }

    /// How many there are.
    pub fn len(&self) -> usize
        ensures len { result ≡ length self.now }
        ensures within { result < 2 ^ 63 }
    {
        self.len
    }

    /// Whether there are none.
    pub fn is_empty(&self) -> bool
        ensures { result ≡ (length self.now == 0) }
    {
        self.len() == 0
    }

    /// Copies them into a room that is as long as they are.
    #[tactic(auto, using(crate::proofs::AuthenticationBase64BytesLemmas::copied))]
    pub fn copy_to(&self, out: &mut [u8])
        requires { length out.old ≡ length self.now }
        ensures { out.new ≡ self.now }
    {
        let _ = STANDARD.decode_slice(self.text, out);
    }

    /// A copy of them in memory of its own. No bytes need none.
    pub fn to_vec(&self, alloc: Global) -> Result<Vec<u8>, AllocError>
        ensures copy { IfOk result (λ copy. copy.items ≡ self.now) }
        ensures some { OnErr result (self.now ≢ []) }
    {
        if self.is_empty() {
            return Ok(Vec::new(alloc));
        }
        let mut copy = vec![in alloc; 0u8; self.len]?;
        self.copy_to(copy.as_mut_slice());
        Ok(copy)
    }
}

// How many bytes a text is the base64 of; nothing where it is not base64.
fn decoded_len(text: &[u8]) -> Option<usize>
    ensures some { IfSome result (IsBase64 text.now) }
    ensures within { IfSome result (λ len. len ≤ length text.now) }
    ensures none { IfNone result (base64_of text.now ≡ None) }
{
    let mut rest = text;
    let mut len: usize = 0;
    while rest.len() > PIECE_TEXT {
        let (piece, after) = rest.split_at(PIECE_TEXT);
        if !is_whole(piece) {
            return None;
        }
        len += PIECE_BYTES;
        rest = after;
    }
    Some(len + last_len(rest)?)
}

// Whether a piece that is not the last is base64: one that needs no padding.
fn is_whole(piece: &[u8]) -> bool
    requires { length piece.now ≡ 64 }
    ensures { (result ≡ true) ↔ IsWhole piece.now }
{
    let mut bytes = [0; PIECE_BYTES];
    STANDARD_NO_PAD.decode_slice(piece, &mut bytes).is_ok()
}

// How many bytes the last piece is the base64 of.
fn last_len(piece: &[u8]) -> Option<usize>
    requires { length piece.now ≤ 64 }
    ensures some { IfSome result (IsBase64 piece.now) }
    ensures within { IfSome result (λ len. len ≤ length piece.now) }
    ensures none { IfNone result (base64_of piece.now ≡ None) }
{
    let mut bytes = [0; PIECE_BYTES];
    STANDARD.decode_slice(piece, &mut bytes).ok()
}
