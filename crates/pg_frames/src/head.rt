//! How a message begins: its tag, and the length that it announces.

ghost use Rattle.std.specs.Prelude.{◌<◌, ◌≤ℤ◌, pos, length, drop, IfSome, IfNone};
ghost use Rattle.pg_base.specs.Cutting.{Begins};
ghost use Rattle.pg_base.specs.Reading.{Signed};
ghost use Rattle.pg_frames.specs.Framing.{Announces, IsPart};

use pg_base::io::i32_at;

/// The length of the shortest message with a tag: the length field counts itself.
pub(crate) const MIN_LENGTH: i32 = 4;

/// The length of the shortest first message: it counts itself and a code.
pub(crate) const MIN_FIRST_LENGTH: i32 = 8;

/// How many bytes a length has.
pub(crate) const LENGTH: usize = 4;

/// How many bytes a tag and a length have.
pub(crate) const HEADER: usize = 5;

/// The first five bytes of a message with a tag. Neither the tag nor the length is tested.
/// Documentation: "Messaging Overview".
#[derive(Clone, Copy)]
pub struct FrameHead {
    /// The tag.
    pub tag: u8,
    /// The length, which counts itself and the body.
    pub announced: i32,
}

impl FrameHead {
    /// The head at the front of the bytes, or `None` where they are fewer than five.
    #[inline(always)]
    pub fn of(bytes: &[u8]) -> Option<FrameHead>
        ensures known { IfSome result (λ head. Announces bytes.now head.tag head.announced) }
        ensures few { IfNone result (length bytes.now < 5) }
    {
        let (tag, after) = bytes.split_first()?;
        let announced = first_length(after)?;
        Some(FrameHead {
            tag: *tag,
            announced,
        })
    }

    /// The body of the message that begins so and what comes after it, or `None` where it isn't whole yet.
    #[inline(always)]
    pub fn body_and_rest(self, bytes: &[u8]) -> Option<(&[u8], &[u8])>
        requires head { Announces bytes.now self.tag self.announced }
        requires least { pos 4 ≤ℤ self.announced }
        ensures whole { IfSome result (λ parts. Begins bytes.now self.tag parts.0.now parts.1.now) }
        ensures part { IfNone result (IsPart bytes.now self.tag) }
    {
        bytes[HEADER..].split_at_checked(self.announced as usize - LENGTH)
    }
}

/// The length at the front of a first message, which has no tag, or `None` where too few bytes are there.
/// It counts itself. Documentation: "Start-up".
#[inline(always)]
pub fn first_length(bytes: &[u8]) -> Option<i32>
    ensures known { IfSome result (λ announced. Signed 4 bytes.now announced (drop 4 bytes.now)) }
    ensures few { IfNone result (length bytes.now < 4) }
{
    i32_at(bytes, 0).ok()
}
