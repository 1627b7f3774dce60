//! The values of a Bind or a FunctionCall, and the names before them.

ghost use Rattle.std.specs.Prelude.{◌+◌, ◌≤◌, length, IfSome, IfOk, IfErr};
ghost use Rattle.pg_format.specs.Format.Lists.{counted, times};
ghost use Rattle.pg_format.specs.Format.Nullable.{value};
ghost use Rattle.pg_format.specs.Format.Parts.{until_nul};
ghost use Rattle.pg_server.specs.Frontend.Message.{HasFault};
ghost use Rattle.pg_c.specs.Client.Parts.{Locates};
ghost use Rattle.pg_c.specs.Client.Values.{FindsValue, FindsValues, GivesFrom, GivesSome, GivesCounted};
ghost use Rattle.pg_c.specs.Client.Values.{AllAfter, SomeAfter, FaultAfter};
ghost use Rattle.pg_c.specs.Place.{StandsIn};

use crate::place::{PgmsgList, PgmsgSpan};
use crate::read::row::{PgmsgCell, place_of_cell, placed};
use byteorder::{BigEndian, ByteOrder};
use pg_base::io::MAX_BODY;
use pg_server::frontend::FrontendFault;
use pg_server::frontend::parts::{text_at, u16_at, value_at};

// The bytes of a value's length.
const LENGTH: usize = 4;

// The length of a value that is NULL.
const NULL: i32 = -1;

/// The place of the name at an offset, and the offset after its NUL. One that is empty is found without a call.
#[inline(always)]
#[tactic(auto, using(crate::proofs::ClientValuesLemmas::empty_finds))]
pub(crate) fn name_at(body: &[u8], at: usize) -> Result<(PgmsgSpan, usize), FrontendFault>
    requires within { at ≤ length body.now }
    requires short { length body.now ≤ MAX_BODY }
    ensures found { Locates until_nul (StandsIn body.now) body.now at result }
    ensures fault { IfErr result (HasFault until_nul body.now at) }
{
    if at < body.len() && body[at] == 0 {
        return Ok((PgmsgSpan { at, len: 0 }, at + 1));
    }
    place_of_text_at(body, at)
}

/// The place of the text at an offset, and the offset after its NUL.
#[inline(always)]
pub(crate) fn place_of_text_at(body: &[u8], at: usize) -> Result<(PgmsgSpan, usize), FrontendFault>
    requires { at ≤ length body.now }
    ensures found { Locates until_nul (StandsIn body.now) body.now at result }
    ensures fault { IfErr result (HasFault until_nul body.now at) }
{
    let (text, end) = text_at(body, at)?;
    Ok((
        PgmsgSpan {
            at,
            len: text.len(),
        },
        end,
    ))
}

/// The place of the values whose count is at an offset, and the offset after them. As many are given as
/// there is room for; where one can't be read, at most those before it.
#[inline(always)]
#[tactic(auto, using(std::proofs::lemmas::Result::err_from_is_err_and, pg_server::proofs::FrontendMessageLemmas::after))]
pub(crate) fn values_at(
    body: &[u8],
    at: usize,
    values: &mut [PgmsgCell],
) -> Result<(PgmsgList, usize), FrontendFault>
    requires within { at ≤ length body.now }
    requires short { length body.now ≤ MAX_BODY }
    ensures found { FindsValues body.now at values.old values.new result }
    ensures small { IfOk result (λ found. found.0.count ≤ 65535) }
    ensures fault { IfErr result (HasFault (counted value) body.now at) }
    ensures front { IfErr result (λ _. GivesCounted body.now at values.old values.new) }
{
    let (count, first) = u16_at(body, at)?;
    let count = usize::from(count);
    let end = give_values(body, first, count, values)?;
    Ok((PgmsgList { at: first, count }, end))
}

// Gives so many values from an offset on: the offset after them.
#[inline(always)]
fn give_values(
    body: &[u8],
    first: usize,
    count: usize,
    values: &mut [PgmsgCell],
) -> Result<usize, FrontendFault>
    requires within { first ≤ length body.now }
    requires short { length body.now ≤ MAX_BODY }
    requires small { count ≤ 65535 }
    ensures given { IfOk result (λ end. GivesFrom body.now first end count values.old values.new) }
    ensures fault { IfErr result (HasFault (times count value) body.now first) }
    ensures front { IfErr result (λ _. GivesSome body.now first count values.old values.new) }
{
    let (index, at) = give_front(body, first, count, values);
    if index < count {
        return give_rest(body, count, index, at, values);
    }
    Ok(at)
}

// Gives the first of so many values: as many as there is room for, up to one that is broken or after which
// the body is too short for the lengths of all. How many they are, and the offset after them.
#[inline(always)]
fn give_front(body: &[u8], first: usize, count: usize, values: &mut [PgmsgCell]) -> (usize, usize)
    requires within { first ≤ length body.now }
    requires short { length body.now ≤ MAX_BODY }
    requires small { count ≤ 65535 }
    ensures few { result.0 ≤ count }
    ensures front { GivesFrom body.now first result.1 result.0 values.old values.new }
{
    let lengths = LENGTH * count;
    if body.len() - first < lengths {
        return (0, first);
    }
    let room = count.min(values.len());
    // Where a value ends at most, since each that follows takes the bytes of its length.
    let mut last = body.len() - lengths;
    let mut at = first;
    for index in 0..room {
        last += LENGTH;
        let Some((len, end)) = value_until(body, at, last) else {
            return (index, at);
        };
        values[index] = placed(at + LENGTH, len);
        at = end;
    }
    (room, at)
}

// The length of the value at an offset, -1 for NULL, and where it ends. Nothing where the length is below
// that, or where the value ends after `last`.
#[inline(always)]
fn value_until(body: &[u8], at: usize, last: usize) -> Option<(i32, usize)>
    requires length { at + 4 ≤ last }
    requires within { last ≤ length body.now }
    requires short { length body.now ≤ MAX_BODY }
    ensures within { IfSome result (λ found. found.1 ≤ last) }
    ensures value { IfSome result (λ found. FindsValue body.now at found.0 found.1) }
{
    let start = at + LENGTH;
    let length = BigEndian::read_i32(&body[at..start]);
    // One test for each value: as a number without a sign, a length below 0 is beyond every body.
    let end = start + length.cast_unsigned() as usize;
    if end > last {
        return if length == NULL {
            Some((NULL, start))
        } else {
            None
        };
    }
    Some((length, end))
}

// Gives the values from one on: those for which there is no room, and those up to the one that is broken.
#[cold]
#[inline(never)]
fn give_rest(
    body: &[u8],
    count: usize,
    index: usize,
    start: usize,
    values: &mut [PgmsgCell],
) -> Result<usize, FrontendFault>
    requires start { start ≤ length body.now }
    requires short { length body.now ≤ MAX_BODY }
    requires few { index ≤ count }
    ensures given { IfOk result (AllAfter body.now start index count values.old values.new) }
    ensures fault { IfErr result (FaultAfter body.now start index count values.old) }
    ensures front { IfErr result (λ _. SomeAfter body.now start index count values.old values.new) }
{
    let mut at = start;
    for next in index..count {
        let (value, end) = value_at(body, at)?;
        if next < values.len() {
            values[next] = place_of_cell(at, value, end);
        }
        at = end;
    }
    Ok(at)
}
