//! Moves a body in blocks (RFC 7959), over messages that are already opened: cuts one that is sent, and joins one that is
//! received.
//!
//! ```rust
//! use osc_blocks::{Block, BlockSize, Body, Received, block_of};
//! use osc_context::Piv;
//!
//! // A body of 6 blocks, moved in blocks of 16 bytes.
//! let sent = b"a representation that is too long for one datagram, so that it goes in blocks of 16 bytes";
//! let mut body: Body<1024> = Body::new();
//! for number in 0..6 {
//!     // The Partial IV of the request for this block.
//!     let request = Piv::new(20 + u64::from(number)).unwrap();
//!     let (block, payload) = block_of(sent, number, BlockSize::Bytes16).unwrap();
//!     // The value of a Block1 or a Block2 option: number 0 with more blocks after it is the one byte 0x08.
//!     let value = block.write();
//!     let block = Block::read(value.as_slice()).unwrap();
//!     body.take(request, b"ETag 1", block, payload)?;
//! }
//! assert_eq!(rt; body.whole(), Some(sent.as_slice()));
//! ```
#![tactic(auto)]

mod block;
mod block_error;
mod block_size;
mod body;
mod cutting;
mod laws;
mod received;
mod request_tags;
mod uint;

pub use crate::block::Block;
pub use crate::block_error::BlockError;
pub use crate::block_size::BlockSize;
pub use crate::body::Body;
pub use crate::cutting::block_of;
pub use crate::laws::{
    cuts_into_blocks, gives_back_bodies, hands_over_bodies, joined_is_cut, one_request_tag,
};
pub use crate::received::Received;
pub use crate::request_tags::request_tag;
