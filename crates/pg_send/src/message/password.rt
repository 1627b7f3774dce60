//! A password, in clear or as a digest.

ghost use Rattle.std.specs.Prelude.{◌≡◌, length};
ghost use Rattle.hex.specs.Hex.{encode_lower};
ghost use Rattle.pg_send.specs.Password.{md5_body, power_over, IsDigest};

use crate::message::FrontendMessage;
use crate::message::round_trip::{check_ended, check_text};
use pg_base::io::part::Part;
use pg_base::io::{Ended, Sink};
use pg_base::{FrontendMessageFormat, ProtocolFault};

const MD5_PREFIX: &str = "md5";

/// Answers a request for a password. Documentation: "Message Formats", PasswordMessage (F).
#[derive(Debug, Drop)]
pub enum Password<'a> {
    /// In clear.
    Cleartext(&'a str),
    /// What another method or another encoding asks for: any bytes before the NUL that ends them.
    Bytes(&'a [u8]),
    /// The MD5 digest of two texts: the hexadecimal digits of the MD5 digest of the password and
    /// the user's name, and the salt.
    Md5 { digest: [u8; 16] },
}

impl FrontendMessage for Password<'_> {
    ghost use Rattle.pg_send.specs.Message.{law_of, password_message};

    const FORMAT: FrontendMessageFormat = FrontendMessageFormat::PasswordPolymorphic;

    ghost law = { λ password. law_of (password_message password) };

    fn tag(&self) -> u8 {
        Self::FORMAT as u8
    }

    fn body_len(&self) -> usize {
        match self {
            Password::Cleartext(password) => Ended(*password).len(),
            Password::Bytes(password) => Ended(*password).len(),
            Password::Md5 { digest } => md5_body_len(digest),
        }
    }

    fn count_fault(&self) -> Option<ProtocolFault> {
        None
    }

    #[inline(always)]
    fn check_round_trip(&self) -> Result<(), ProtocolFault> {
        match self {
            Password::Cleartext(password) => check_text(password),
            Password::Bytes(password) => check_ended(password),
            Password::Md5 { .. } => Ok(()),
        }
    }

    fn room_for(&self, len: usize) -> usize {
        match self {
            Password::Cleartext(_) => power_over(len),
            Password::Bytes(_) => power_over(len),
            Password::Md5 { .. } => len,
        }
    }

    fn put_body<S: Sink>(&self, sink: &mut S) {
        match self {
            Password::Cleartext(password) => sink.put_text(password.as_bytes()),
            Password::Bytes(password) => sink.put_text(password),
            Password::Md5 { digest } => {
                sink.put_slice(MD5_PREFIX.as_bytes());
                sink.put_slice(&digits_of(digest));
                sink.put_u8(0);
            }
        }
    }

    ghost use Rattle.pg_send.specs.Password.Laws.{enough_room};

    ghost enough = { λ password h. enough_room password h };
}

// The least power of two that holds a length, so that the room doesn't tell it.
#[tactic(auto, using(crate::proofs::PowerLemmas::power_over_is))]
fn power_over(len: usize) -> usize
    ensures { result ≡ power_over len }
{
    len.checked_next_power_of_two().unwrap_or(usize::MAX)
}

fn md5_body_len(digest: &[u8; 16]) -> usize
    ensures { result ≡ length (md5_body digest.now) }
{
    MD5_PREFIX.len() + 2 * digest.len() + 1
}

// The digest as hexadecimal digits in lower case.
fn digits_of(digest: &[u8; 16]) -> [u8; 32]
    ensures digits { result ≡ encode_lower digest.now }
    ensures range { IsDigest digest.now }
{
    let mut digits = [0; 32];
    hex::encode_to_slice(digest.as_slice(), &mut digits).unwrap();
    digits
}
