//! What a call refuses with: a status and a detail.

ghost use Rattle.std.specs.Prelude.{◌≡◌};
ghost use Rattle.osc_status.specs.Statuses.{ask_detail, ask_status, context_status, format_status, head_detail, head_status, open_detail, open_status, seal_detail, seal_status, split_detail, split_status, uri_status};

use crate::status::Status;
use osc_coap::{Fault, FormatError};
use osc_context::ContextError;
use osc_protect::{HeadError, ProtectError, UnprotectError};
use osc_proxy::{AskProxyError, SplitError, UriError};

/// Why nothing was done, with a detail: the place of a fault, the number or the index of an option, or the number to save; otherwise
/// 0.
#[derive(Clone, Copy, PartialEq, Eq)]
pub struct Refusal {
    pub status: Status,
    pub detail: usize,
}

impl From<Status> for Refusal {
    ghost from_gives = { λ status given. given ≡ record { status = status; detail = 0 } };

    /// Makes a refusal that says no more than its name.
    fn from(status: Status) -> Refusal {
        Refusal { status, detail: 0 }
    }
}

impl From<ContextError> for Status {
    ghost from_gives = { λ error given. given ≡ context_status error };

    fn from(error: ContextError) -> Status {
        match error {
            ContextError::SecretLength => Status::SecretLength,
            ContextError::SaltLength => Status::SaltLength,
            ContextError::IdTooLong => Status::IdTooLong,
            ContextError::SameIds => Status::SameIds,
            ContextError::IdContextLength => Status::IdContextLength,
        }
    }
}

impl From<Fault> for Status {
    ghost from_gives = { λ fault given. given ≡ format_status fault };

    fn from(fault: Fault) -> Status {
        match fault {
            Fault::DatagramTooLong => Status::DatagramTooLong,
            Fault::Short => Status::Short,
            Fault::Version => Status::Version,
            Fault::TokenLength => Status::TokenLength,
            Fault::EmptyWithRest => Status::EmptyWithRest,
            Fault::TokenCut => Status::TokenCut,
            Fault::Nibble15 => Status::Nibble15,
            Fault::OptionCut => Status::OptionCut,
            Fault::NumberTooLarge => Status::NumberTooLarge,
            Fault::EmptyPayload => Status::EmptyPayload,
        }
    }
}

impl From<FormatError> for Refusal {
    ghost from_gives = { λ error given. given ≡ record { status = format_status error.fault; detail = error.place } };

    fn from(error: FormatError) -> Refusal {
        Refusal {
            status: error.fault.into(),
            detail: error.place,
        }
    }
}

impl From<HeadError> for Refusal {
    ghost from_gives = { λ error given. given ≡ record { status = head_status error; detail = head_detail error } };

    fn from(error: HeadError) -> Refusal {
        match error {
            HeadError::Format(error) => error.into(),
            HeadError::NotThatKind => Status::NotThatKind.into(),
            HeadError::NoOscore => Status::NoOscore.into(),
            HeadError::Undecodable => Status::Undecodable.into(),
        }
    }
}

impl From<UnprotectError> for Refusal {
    ghost from_gives = { λ error given. given ≡ record { status = open_status error; detail = open_detail error } };

    fn from(error: UnprotectError) -> Refusal {
        match error {
            UnprotectError::Format(error) => error.into(),
            UnprotectError::NotThatKind => Status::NotThatKind.into(),
            UnprotectError::NoOscore => Status::NoOscore.into(),
            UnprotectError::Undecodable => Status::Undecodable.into(),
            UnprotectError::WrongContext => Status::WrongContext.into(),
            UnprotectError::Tag => Status::Tag.into(),
            UnprotectError::Inner => Status::Inner.into(),
        }
    }
}

impl From<ProtectError> for Refusal {
    ghost from_gives = { λ error given. given ≡ record { status = seal_status error; detail = seal_detail error } };

    fn from(error: ProtectError) -> Refusal {
        match error {
            ProtectError::NotThatKind => Status::NotThatKind.into(),
            ProtectError::Unsupported(number) => Refusal {
                status: Status::Unsupported,
                detail: usize::from(number),
            },
            ProtectError::TooLong => Status::TooLong.into(),
            ProtectError::NoRoom => Status::NoRoom.into(),
        }
    }
}

impl From<UriError> for Status {
    ghost from_gives = { λ error given. given ≡ uri_status error };

    fn from(error: UriError) -> Status {
        match error {
            UriError::Scheme => Status::Scheme,
            UriError::Fragment => Status::Fragment,
            UriError::Character => Status::Character,
            UriError::Authority => Status::Authority,
            UriError::Userinfo => Status::Userinfo,
            UriError::Host => Status::Host,
            UriError::Port => Status::Port,
        }
    }
}

impl From<SplitError> for Refusal {
    ghost from_gives = { λ error given. given ≡ record { status = split_status error; detail = split_detail error } };

    fn from(error: SplitError) -> Refusal {
        match error {
            SplitError::Format(error) => error.into(),
            SplitError::NotRequest => Status::NotThatKind.into(),
            SplitError::NotOneProxyUri => Status::NotOneProxyUri.into(),
            SplitError::Mixed => Status::Mixed.into(),
            SplitError::Uri(error) => Status::from(error).into(),
            SplitError::PartTooLong => Status::PartTooLong.into(),
            SplitError::TooLong => Status::TooLong.into(),
            SplitError::NoRoom => Status::NoRoom.into(),
        }
    }
}

impl From<AskProxyError> for Refusal {
    ghost from_gives = { λ error given. given ≡ record { status = ask_status error; detail = ask_detail error } };

    fn from(error: AskProxyError) -> Refusal {
        match error {
            AskProxyError::Format(error) => error.into(),
            AskProxyError::NotRequest => Status::NotThatKind.into(),
            AskProxyError::Asked => Status::Asked.into(),
            AskProxyError::SchemeLength => Status::SchemeLength.into(),
            AskProxyError::TooLong => Status::TooLong.into(),
            AskProxyError::NoRoom => Status::NoRoom.into(),
        }
    }
}
