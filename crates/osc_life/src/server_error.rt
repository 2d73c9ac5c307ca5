//! Why a server refuses a call.

use std::error::Error;
use std::fmt;

/// Why a context isn't added. The variants stand in the order in which they are checked.
#[derive(Clone, Copy, Debug, PartialEq, Eq)]
pub enum AddError {
    /// The server has as many contexts as it has room for; own rule.
    Full,
    /// One of its contexts has the same Recipient ID, and both have the same ID Context or none (RFC 8613, 3.3).
    SameLookup,
}

impl fmt::Display for AddError {
    ghost use Rattle.std.specs.Prelude.{Some};
    ghost use Rattle.osc_life.specs.Text.{add_error_text};

    ghost output = { λ error. Some (add_error_text error) };

    fn fmt<W: fmt::Write>(&self, f: &mut fmt::Formatter<W>) -> fmt::Result {
        match self {
            AddError::Full => f.write_str("Full"),
            AddError::SameLookup => f.write_str("SameLookup"),
        }
    }
}

impl Error for AddError {}

/// Why a context isn't restarted. The variants stand in the order in which they are checked.
#[derive(Clone, Copy, Debug, PartialEq, Eq)]
pub enum RestartError {
    /// No context has this index.
    NoSuchContext,
    /// The context was restarted or replaced 2^64 - 1 times.
    LivesExhausted,
}

impl fmt::Display for RestartError {
    ghost use Rattle.std.specs.Prelude.{Some};
    ghost use Rattle.osc_life.specs.Text.{restart_error_text};

    ghost output = { λ error. Some (restart_error_text error) };

    fn fmt<W: fmt::Write>(&self, f: &mut fmt::Formatter<W>) -> fmt::Result {
        match self {
            RestartError::NoSuchContext => f.write_str("NoSuchContext"),
            RestartError::LivesExhausted => f.write_str("LivesExhausted"),
        }
    }
}

impl Error for RestartError {}

/// Why a context isn't replaced. The variants stand in the order in which they are checked.
#[derive(Clone, Copy, Debug, PartialEq, Eq)]
pub enum ReplaceError {
    /// No context has this index.
    NoSuchContext,
    /// The context was restarted or replaced 2^64 - 1 times.
    LivesExhausted,
    /// Another context has the same Recipient ID, and both have the same ID Context or none (RFC 8613, 3.3).
    SameLookup,
    /// A context that is there, perhaps the one to be replaced, has the same Sender Key: both would use the same Sender Sequence Numbers
    /// (RFC 8613, 3.3 and 5.2).
    SameSender,
}

impl fmt::Display for ReplaceError {
    ghost use Rattle.std.specs.Prelude.{Some};
    ghost use Rattle.osc_life.specs.Text.{replace_error_text};

    ghost output = { λ error. Some (replace_error_text error) };

    fn fmt<W: fmt::Write>(&self, f: &mut fmt::Formatter<W>) -> fmt::Result {
        match self {
            ReplaceError::NoSuchContext => f.write_str("NoSuchContext"),
            ReplaceError::LivesExhausted => f.write_str("LivesExhausted"),
            ReplaceError::SameLookup => f.write_str("SameLookup"),
            ReplaceError::SameSender => f.write_str("SameSender"),
        }
    }
}

impl Error for ReplaceError {}

/// Why Sender Sequence Numbers aren't passed over. The variants stand in the order in which they are checked.
#[derive(Clone, Copy, Debug, PartialEq, Eq)]
pub enum SkipError {
    /// No context has this index.
    NoSuchContext,
    /// Fewer numbers below 2^40 are left (RFC 8613, 7.2.1).
    TooFewLeft,
}

impl fmt::Display for SkipError {
    ghost use Rattle.std.specs.Prelude.{Some};
    ghost use Rattle.osc_life.specs.Text.{skip_error_text};

    ghost output = { λ error. Some (skip_error_text error) };

    fn fmt<W: fmt::Write>(&self, f: &mut fmt::Formatter<W>) -> fmt::Result {
        match self {
            SkipError::NoSuchContext => f.write_str("NoSuchContext"),
            SkipError::TooFewLeft => f.write_str("TooFewLeft"),
        }
    }
}

impl Error for SkipError {}

/// Why a reply or a notification isn't sealed. The variants stand in the order in which they are checked.
#[derive(Clone, Copy, Debug, PartialEq, Eq)]
pub enum ReplyError {
    /// The keeper of the Sender Sequence Numbers failed. A `Server` never returns this.
    KeeperFailed,
    /// The ticket's context isn't there, or has begun a new life.
    StaleTicket,
    /// The ticket's request registers no observation. A reply is never refused for this.
    NotObserving,
    /// The message has no response code.
    NotThatKind,
    /// The message has an option that can't be sealed. In a reply, Observe is one, even if the context takes part in it. The value is the
    /// lowest number of such an option; own rule.
    Unsupported(u16),
    /// The message isn't of class 2, or has no Observe. A reply is never refused for this.
    NotNotification,
    /// A Sender Sequence Number is asked for, and none is left. A notification always asks for one.
    SequenceExhausted,
    /// The reply would have more than 65,535 bytes; own rule.
    TooLong,
    /// The reply would have more bytes than the buffer.
    NoRoom,
}

impl fmt::Display for ReplyError {
    ghost use Rattle.std.specs.Prelude.{Some};
    ghost use Rattle.osc_life.specs.Text.{reply_error_text};

    ghost output = { λ error. Some (reply_error_text error) };

    fn fmt<W: fmt::Write>(&self, f: &mut fmt::Formatter<W>) -> fmt::Result {
        match self {
            ReplyError::KeeperFailed => f.write_str("KeeperFailed"),
            ReplyError::StaleTicket => f.write_str("StaleTicket"),
            ReplyError::NotObserving => f.write_str("NotObserving"),
            ReplyError::NotThatKind => f.write_str("NotThatKind"),
            ReplyError::Unsupported(number) => write!(f, "Unsupported {number}"),
            ReplyError::NotNotification => f.write_str("NotNotification"),
            ReplyError::SequenceExhausted => f.write_str("SequenceExhausted"),
            ReplyError::TooLong => f.write_str("TooLong"),
            ReplyError::NoRoom => f.write_str("NoRoom"),
        }
    }
}

impl Error for ReplyError {}
