//! Messages from a client, read where they are: for servers, poolers and proxies.
//!
//! Bodies are those of the frames of `pgmsg_next_first_frame` and `pgmsg_next_frontend_frame`. Places are in
//! the bytes that were passed; texts are any bytes but NUL, in the client's encoding. A call refuses by a
//! number below 0, and then alone fills `fault`; an array of places holds at most the values before the one
//! that is broken.

pub mod bind;
pub mod execute;
pub mod first;
pub mod frames;
pub mod function_call;
pub mod lists;
pub mod parse;
pub mod sasl_initial;
pub mod startup;
pub mod target;
pub mod text;
mod values;
