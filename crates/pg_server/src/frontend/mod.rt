//! What a message from a client is, borrowed from its body, and how one is read.
//!
//! Names and texts are any bytes but NUL, in the client's encoding; [`utf8_text`] gives one as `&str`, where it is
//! UTF-8. Nothing here asks for memory.

mod bind;
mod cancel_request;
mod empty;
mod error;
mod execute;
mod first_message_ref;
pub(crate) mod format_codes;
mod frontend_message_ref;
mod function_call;
pub mod laws;
pub(crate) mod offsets;
pub(crate) mod parameter_types;
mod parse;
pub mod parts;
mod sasl_initial;
mod settings;
mod target;
mod text;
pub(crate) mod values;

pub use bind::BindRef;
pub use cancel_request::CancelRequestRef;
pub use empty::read_empty;
pub use error::FrontendFault;
pub use execute::ExecuteRef;
pub use first_message_ref::FirstMessageRef;
pub use format_codes::FormatCodes;
pub use frontend_message_ref::{FrontendMessageRef, format_of};
pub use function_call::FunctionCallRef;
pub use parameter_types::ParameterTypes;
pub use parse::ParseRef;
pub use pg_format::text::utf8_text;
pub use sasl_initial::SaslInitialRef;
pub use settings::Settings;
pub use target::{Target, TargetRef};
pub use text::read_text;
pub use values::Values;
