//! What a message needs so that a reader gets it back from its bytes.

ghost use Rattle.std.specs.Prelude.{◌≡◌, ◌↔◌, ℕ, List, [], IsTrue, IfSome, IfNone, IfErr, OnOk};
ghost use Rattle.pg_base.specs.declared.error.ProtocolFault.TheVariants.{TextHoldsNul, BadParams};
ghost use Rattle.pg_base.specs.Reading.{HoldsNo, Value, Values};

use crate::message::nul::holds_no_nul;
use pg_base::ProtocolFault;
use pg_base::io::i32_at;

// The length of a value that is NULL.
const NULL: i32 = -1;

/// Refuses a text that holds a NUL with `TextHoldsNul`.
#[inline(always)]
pub fn check_text(text: &str) -> Result<(), ProtocolFault>
    ensures ok { OnOk result (HoldsNo 0 text.now) }
    ensures fault { IfErr result (λ fault. (fault ≡ TextHoldsNul) × ¬ (HoldsNo 0 text.now)) }
{
    check_ended(text.as_bytes())
}

/// Refuses bytes that are to end at a NUL, and hold one, with `TextHoldsNul`.
#[inline(always)]
pub fn check_ended(bytes: &[u8]) -> Result<(), ProtocolFault>
    ensures ok { OnOk result (HoldsNo 0 bytes.now) }
    ensures fault { IfErr result (λ fault. (fault ≡ TextHoldsNul) × ¬ (HoldsNo 0 bytes.now)) }
{
    if holds_no_nul(bytes) {
        return Ok(());
    }
    Err(ProtocolFault::TextHoldsNul)
}

/// As [`check_ended`], of a name, which is often empty and isn't searched then.
#[inline(always)]
pub fn check_name(name: &[u8]) -> Result<(), ProtocolFault>
    ensures ok { OnOk result (HoldsNo 0 name.now) }
    ensures fault { IfErr result (λ fault. (fault ≡ TextHoldsNul) × ¬ (HoldsNo 0 name.now)) }
{
    if name.is_empty() {
        return Ok(());
    }
    check_ended(name)
}

/// Refuses bytes that are not just so many parameter values with `BadParams`.
#[inline(always)]
pub fn check_values(count: u16, params: &[u8]) -> Result<(), ProtocolFault>
    ensures ok { OnOk result (Values count params.now []) }
    ensures fault { IfErr result (λ fault. (fault ≡ BadParams) × ¬ (Values count params.now [])) }
{
    let mut rest = params;
    for _ in 0..count {
        let Some(after) = after_value(rest) else {
            return Err(ProtocolFault::BadParams);
        };
        rest = after;
    }
    if rest.is_empty() {
        Ok(())
    } else {
        Err(ProtocolFault::BadParams)
    }
}

// What follows the value at the front.
#[inline(always)]
fn after_value(bytes: &[u8]) -> Option<&[u8]>
    ensures found { IfSome result (λ rest. Value bytes.now rest.now) }
    ensures none { IfNone result ((rest : List ℕ) → ¬ (Value bytes.now rest)) }
{
    let Ok(len) = i32_at(bytes, 0) else {
        return None;
    };
    let after = &bytes[4..];
    // Asked first, since a length is seldom below 0: the conversion then needs no test.
    if len < 0 {
        if len == NULL {
            return Some(after);
        }
        return None;
    }
    match usize::try_from(len) {
        Ok(len) => {
            if len > after.len() {
                return None;
            }
            Some(&after[len..])
        }
        Err(_) => None,
    }
}
