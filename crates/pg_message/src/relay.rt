//! The core of a proxy: a stream's frames passed on, kept or changed.

pub use pg_frames::relay::{
    All, Answer, Answers, Event, FrameBytes, Passage, Relay, RelayError, Step, Wants, end_of_run,
    next_passage, pass_piece, pass_pieces,
};
