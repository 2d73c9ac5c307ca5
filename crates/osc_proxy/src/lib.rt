//! What asks a forward proxy for a sealed request (RFC 7252, 5.7.2 and 5.10.2; RFC 8613, 4.1.3.3): Proxy-Uri is split into options before
//! the request is sealed, and Proxy-Scheme is put outside of the protection once it is.
#![tactic(auto)]

mod ask_error;
mod asking;
mod cutting;
mod laws;
mod parts;
mod percent;
mod split_error;
mod splitting;
mod tally;
mod uri;
mod uri_error;
mod writing;

pub use ask_error::AskProxyError;
pub use asking::ask_proxy;
pub use laws::{parts_are_joined, proxies_forward_what_was_sealed, uris_are_their_parts};
pub use parts::Components;
pub use percent::{PartTooLong, PartValue, percent_decoded};
pub use split_error::SplitError;
pub use splitting::split_proxy_uri;
pub use uri::{ProxyUri, UriScheme};
pub use uri_error::UriError;
