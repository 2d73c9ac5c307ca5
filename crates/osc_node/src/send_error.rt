//! Why a node doesn't send a message.

use osc_endpoint::{ReplyError, RequestError};
use osc_message::BeginError;
use std::error::Error;
use std::fmt;

/// Why a request isn't sent. The variants stand in the order in which they are checked.
#[derive(Clone, Copy, Debug, PartialEq, Eq)]
pub enum SendError {
    /// The message layer can't send it now.
    Layer(BeginError),
    /// No Message ID can be given now: the next half of them isn't begun before 247 s after the present one, or all are used.
    NoMessageId,
    /// The peer doesn't seal it.
    Refused(RequestError),
}

impl fmt::Display for SendError {
    ghost use Rattle.std.specs.Prelude.{Some};
    ghost use Rattle.osc_node.specs.Text.{send_error_text};

    ghost output = { λ error. Some (send_error_text error) };

    fn fmt<W: fmt::Write>(&self, f: &mut fmt::Formatter<W>) -> fmt::Result {
        match self {
            SendError::Layer(error) => error.fmt(f),
            SendError::NoMessageId => f.write_str("NoMessageId"),
            SendError::Refused(error) => error.fmt(f),
        }
    }
}

impl Error for SendError {}

/// Why a response isn't sent. The variants stand in the order in which they are checked.
#[derive(Clone, Copy, Debug, PartialEq, Eq)]
pub enum RespondError {
    /// The request isn't in mind any more, or was answered before.
    Forgotten,
    /// The message layer can't send it now: only a response in a message of its own is refused so.
    Layer(BeginError),
    /// No Message ID can be given now: only a response in a message of its own needs one.
    NoMessageId,
    /// The peer doesn't seal it.
    Refused(ReplyError),
}

impl fmt::Display for RespondError {
    ghost use Rattle.std.specs.Prelude.{Some};
    ghost use Rattle.osc_node.specs.Text.{respond_error_text};

    ghost output = { λ error. Some (respond_error_text error) };

    fn fmt<W: fmt::Write>(&self, f: &mut fmt::Formatter<W>) -> fmt::Result {
        match self {
            RespondError::Forgotten => f.write_str("Forgotten"),
            RespondError::Layer(error) => error.fmt(f),
            RespondError::NoMessageId => f.write_str("NoMessageId"),
            RespondError::Refused(error) => error.fmt(f),
        }
    }
}

impl Error for RespondError {}

/// Why a notification isn't sent. The variants stand in the order in which they are checked.
#[derive(Clone, Copy, Debug, PartialEq, Eq)]
pub enum NotifyError {
    /// The message layer can't send it now: only a CON is refused so.
    Layer(BeginError),
    /// No Message ID can be given now: the next half of them isn't begun before 247 s after the present one, or all are used.
    NoMessageId,
    /// The peer doesn't seal it.
    Refused(ReplyError),
}

impl fmt::Display for NotifyError {
    ghost use Rattle.std.specs.Prelude.{Some};
    ghost use Rattle.osc_node.specs.Text.{notify_error_text};

    ghost output = { λ error. Some (notify_error_text error) };

    fn fmt<W: fmt::Write>(&self, f: &mut fmt::Formatter<W>) -> fmt::Result {
        match self {
            NotifyError::Layer(error) => error.fmt(f),
            NotifyError::NoMessageId => f.write_str("NoMessageId"),
            NotifyError::Refused(error) => error.fmt(f),
        }
    }
}

impl Error for NotifyError {}
