//! Reads and writes CoAP messages (RFC 7252, 3) and the plaintexts of protected messages (RFC 8613, 5.3).
//!
//! ```rust
//! use osc_coap::{Kind, parse};
//!
//! // A confirmable GET for `tv1` at `localhost` (RFC 8613, C.4).
//! let message = parse(b"\x44\x01\x5d\x1f\x00\x00\x39\x74\x39localhost\x83tv1")?;
//! assert_eq!(rt; message.kind, Kind::Con);
//! assert_eq!(rt; message.options().next(), Some((3, b"localhost".as_slice())));
//! ```
#![tactic(auto)]

mod body;
mod class;
mod code;
mod format_error;
mod head;
mod inner;
mod interpreted;
mod laws;
mod message;
mod option_header;
pub mod option_numbers;
mod options;
mod parsing;
mod parting;
mod placing;
mod write_error;
mod writer;

pub use crate::class::{Class, class_of};
pub use crate::code::{is_request_code, is_response_code};
pub use crate::format_error::{Fault, FormatError, MOST_DATAGRAM};
pub use crate::head::head_len;
pub use crate::inner::Inner;
pub use crate::laws::{
    lengths_by_parts, one_datagram, one_inner, one_spelling, one_text, options_are_spelled,
    options_ascend, payload_stands_last,
};
pub use crate::message::{Kind, Message, Token};
pub use crate::option_header::option_len;
pub use crate::options::Options;
pub use crate::parsing::{parse, parse_inner};
pub use crate::parting::{parsed, parsed_inner};
pub use crate::write_error::WriteError;
pub use crate::writer::Writer;
