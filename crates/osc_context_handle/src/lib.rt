//! A security context (RFC 8613, 3.1) in the caller's memory, as plain bytes.
#![tactic(auto)]

mod context_handle;

pub use context_handle::ContextHandle;

/// For the crates that keep other parts of an end as plain bytes.
#[doc(hidden)]
pub mod siblings {
    pub use crate::context_handle::padded;
}
