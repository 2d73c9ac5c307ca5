//! Why a server doesn't add a context beside those that are there.

use osc_life::AddError;
use std::error::Error;
use std::fmt;

/// Why a context isn't added. The variants stand in the order in which they are checked.
#[derive(Clone, Copy, Debug, PartialEq, Eq)]
pub enum AddRefusal {
    /// `Server::add` refuses the context for this reason.
    Refused(AddError),
    /// A context of the server has the same Sender Key (RFC 8613, 3.3).
    SameSender,
}

impl fmt::Display for AddRefusal {
    ghost use Rattle.std.specs.Prelude.{Some};
    ghost use Rattle.osc_endpoint.specs.Views.{add_refusal_text};

    ghost output = { λ refusal. Some (add_refusal_text refusal) };

    fn fmt<W: fmt::Write>(&self, f: &mut fmt::Formatter<W>) -> fmt::Result {
        match self {
            AddRefusal::Refused(error) => error.fmt(f),
            AddRefusal::SameSender => f.write_str("SameSender"),
        }
    }
}

impl Error for AddRefusal {}
