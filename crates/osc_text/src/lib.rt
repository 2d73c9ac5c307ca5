//! What each call of the command `oscore` prints, over any writer: a text of whole lines, and the status. This crate also reads words of
//! hex and of digits.
//!
//! ```
//! let params = Params { secret, salt, id_context: None, sender, recipient };
//! let agreed = Agreed { params, features: NO_FEATURES, tables: false };
//! let mut datagram = read_hex(alloc, word)?;
//! let status = open_text(alloc, agreed, Opening::Request, &mut datagram, &mut out)?;
//! ```
#![tactic(auto)]

mod agreed;
mod asked_entries;
mod asked_events;
mod asking;
mod derivation;
mod ends;
mod entry_lines;
mod explanation;
mod fault;
mod following;
mod forwarding;
mod hex_word;
mod input_events;
mod input_lines;
mod input_words;
mod kept_ends;
mod kept_entries;
mod kept_events;
mod lines;
mod number_word;
mod opening;
mod oscore_lines;
mod peer_entries;
mod peer_events;
mod peering;
mod protection;
mod replacing;
mod served_entries;
mod serving;

pub use agreed::Agreed;
pub use asking::{Asking, ask_following, ask_text};
pub use derivation::derive_text;
pub use explanation::explain_text;
pub use fault::{Fault, Wrong};
pub use forwarding::forward_text;
pub use hex_word::{HexError, read_hex};
pub use kept_ends::{ask_kept_following, ask_kept_text, serve_kept_following, serve_kept_text};
pub use number_word::{read_decimal, read_number};
pub use opening::{Opening, open_text};
pub use peering::{Peering, peer_following, peer_text};
pub use protection::{Sealing, protect_text};
pub use serving::{Serving, serve_following, serve_text};
