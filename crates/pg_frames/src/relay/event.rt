//! What a relay hands out.

ghost use Rattle.std.specs.Prelude.{◌≡◌};
ghost use Rattle.pg_frames.specs.Relay.{bytes_of};

/// Bytes of a frame.
#[derive(Drop)]
pub enum FrameBytes<'a> {
    /// Where they lie in the piece that came.
    Lying(&'a [u8]),
    /// From several pieces, one after the other.
    Joined(Vec<u8>),
}

impl FrameBytes<'_> {
    /// The bytes.
    #[inline(always)]
    pub fn as_slice(&self) -> &[u8]
        ensures { result.now ≡ bytes_of self.now }
    {
        match self {
            FrameBytes::Lying(bytes) => bytes,
            FrameBytes::Joined(bytes) => bytes.as_slice(),
        }
    }
}

/// What comes of the bytes that a relay takes.
#[derive(Drop)]
pub enum Event<'a> {
    /// A whole frame. It goes out as it is, or what its user puts in its place.
    Frame {
        /// The tag, or none where it is a client's first message.
        tag: Option<u8>,
        /// All of its bytes, with tag and length.
        bytes: FrameBytes<'a>,
    },
    /// The next bytes of a frame that isn't wanted whole. They go out as they are.
    Part {
        /// The bytes.
        bytes: FrameBytes<'a>,
        /// How many bytes of the frame are still to come.
        left: usize,
    },
    /// Nothing yet.
    Held,
}

/// What comes of the front of a piece, and what is left of the piece.
#[derive(Drop)]
pub struct Step<'a> {
    /// What comes of its front.
    pub event: Event<'a>,
    /// The rest, which is the next piece.
    pub rest: &'a [u8],
}
