//! The command `oscore` over any reader and two writers. It reads the words of a call, does what they ask for with the functions of
//! `osc_text`, and returns the status.
//!
//! ```
//! let status = command(alloc, &words, &mut input, &mut out, &mut err, keepers);
//! ```
#![tactic(auto)]

mod calls;
mod context_words;
mod event_faults;
mod fault_text;
mod quoting;
mod run_ends;
mod run_words;
mod running;
mod words;

pub use running::{Keepers, command, report};
pub use words::read_words;
