//! The example of each library's page, proved from the public contracts alone. The example on a library's page is its module here. The other
//! modules have the lines of Rust that stand on other pages: `serving` those of the first page, the rest those of docs/LIBRARY.md.
#![tactic(auto)]

pub mod aes;
pub mod asking;
pub mod blocks;
pub mod ccm;
pub mod coap;
pub mod command;
pub mod context;
pub mod endpoint;
pub mod features;
pub mod file;
pub mod hkdf;
pub mod keeping;
pub mod kept;
pub mod message;
pub mod messages;
pub mod observers;
pub mod observing;
pub mod peer_handle;
pub mod protect;
pub mod proxy;
pub mod record;
pub mod room;
pub mod serving;
pub mod staging;
pub mod text;
pub mod window;
