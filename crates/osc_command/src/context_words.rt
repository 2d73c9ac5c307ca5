//! The context that the words of a call name.

use crate::words::{bytes_of, required_bytes};
use clap::ArgMatches;
use osc_context::{Features, Params};
use osc_text::{Agreed, Fault};
use std::alloc::Global;

/// The bytes of a context's options, from which the context is derived, what may pass inside its protection, and its cipher.
#[derive(Drop)]
pub(crate) struct ContextWords {
    secret: Vec<u8>,
    salt: Vec<u8>,
    sender: Vec<u8>,
    recipient: Vec<u8>,
    id_context: Option<Vec<u8>>,
    features: Features,
    tables: bool,
}

/// Returns whether `--allow` gives this name.
fn is_allowed(matches: &ArgMatches<'_>, name: &str) -> bool {
    let Some(names) = matches.get_strs("allow") else {
        return false;
    };
    names.iter().any(|allowed| *allowed == name)
}

impl ContextWords {
    /// Reads the options in the order in which the help lists them. The salt and the identifiers are empty if they aren't given.
    pub(crate) fn read(alloc: Global, matches: &ArgMatches<'_>) -> Result<ContextWords, Fault> {
        let secret = required_bytes(alloc, matches, "secret", "--secret")?;
        let salt = bytes_of(alloc, "--salt", matches.get_str("salt").unwrap_or(""))?;
        let sender = bytes_of(alloc, "--sender", matches.get_str("sender").unwrap_or(""))?;
        let recipient = bytes_of(
            alloc,
            "--recipient",
            matches.get_str("recipient").unwrap_or(""),
        )?;
        let id_context = match matches.get_str("id-context") {
            Some(word) => Some(bytes_of(alloc, "--id-context", word)?),
            None => None,
        };
        Ok(ContextWords {
            secret,
            salt,
            sender,
            recipient,
            id_context,
            features: Features {
                observe: is_allowed(matches, "observe"),
                blocks: is_allowed(matches, "blocks"),
            },
            tables: matches.get_flag("tables"),
        })
    }

    /// Returns what was agreed: what the context is derived from, and the features that it takes part in; and the cipher.
    pub(crate) fn agreed(&self) -> Agreed<'_> {
        let params = Params {
            secret: self.secret.as_slice(),
            salt: self.salt.as_slice(),
            id_context: self.id_context.as_deref(),
            sender: self.sender.as_slice(),
            recipient: self.recipient.as_slice(),
        };
        Agreed {
            params,
            features: self.features,
            tables: self.tables,
        }
    }
}
