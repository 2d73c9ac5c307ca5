//! The refusals that C reads of what an end answers.

ghost use Rattle.std.specs.Prelude.{◌≡◌, ◌≢◌, IfOk, IfErr};
ghost use Rattle.osc_client.specs.declared.client_outcome.RequestError.TheVariants.{KeeperFailed as NoKeeperToAsk};
ghost use Rattle.osc_life.specs.declared.outcome.Outcome.TheVariants.{Deliver as Delivered, KeeperFailed as KeeperFailedOutcome};
ghost use Rattle.osc_life.specs.declared.server_error.ReplyError.TheVariants.{KeeperFailed};
ghost use Rattle.osc_c.specs.Asking.{IsAskingStatus, IsOutcomeStatus as IsHeardStatus, shown_as};
ghost use Rattle.osc_c.specs.Answering.{IsOutcomeStatus, IsReplyStatus};

use osc_context::Piv;
use osc_endpoint::{ClientOutcome, Outcome, ReplyError, RequestError, Ticket};
use osc_protect::Opened;
use osc_status::{Refusal, Status};

/// Returns what was delivered and its ticket, or the refusal that C reads.
pub(crate) fn delivery<'b>(outcome: Outcome<'b>) -> Result<(Opened<'b>, Ticket), Refusal>
    requires { outcome ≢ KeeperFailedOutcome }
    ensures opened { IfOk result (λ o. outcome.entry ≡ Delivered o.0 o.1) }
    ensures refused { IfErr result (λ r. IsOutcomeStatus outcome.entry r.status r.detail) }
{
    match outcome {
        Outcome::Malformed(error) => Err(error.into()),
        Outcome::NotRequest => Err(Status::NotThatKind.into()),
        Outcome::Plain => Err(Status::NoOscore.into()),
        Outcome::Undecodable => Err(Status::Undecodable.into()),
        Outcome::NoContext => Err(Status::NoContext.into()),
        Outcome::Replay => Err(Status::Replay.into()),
        Outcome::BadTag => Err(Status::Tag.into()),
        Outcome::BadInner => Err(Status::Inner.into()),
        Outcome::Challenge { .. } => Err(Status::Challenge.into()),
        Outcome::SequenceExhausted => Err(Status::SequenceExhausted.into()),
        Outcome::KeeperFailed => unreachable!(),
        Outcome::Deliver(opened, ticket) => Ok((opened, ticket)),
    }
}

/// Returns the refusal that C reads when a server refuses to reply or to notify.
pub(crate) fn replying_refusal(error: ReplyError) -> Refusal
    requires { error ≢ KeeperFailed }
    ensures { IsReplyStatus error result.status result.detail }
{
    match error {
        ReplyError::KeeperFailed => unreachable!(),
        ReplyError::StaleTicket => Status::StaleTicket.into(),
        ReplyError::NotObserving => Status::NotObserving.into(),
        ReplyError::NotThatKind => Status::NotThatKind.into(),
        ReplyError::Unsupported(number) => Refusal {
            status: Status::Unsupported,
            detail: usize::from(number),
        },
        ReplyError::NotNotification => Status::NotNotification.into(),
        ReplyError::SequenceExhausted => Status::SequenceExhausted.into(),
        ReplyError::TooLong => Status::TooLong.into(),
        ReplyError::NoRoom => Status::NoRoom.into(),
    }
}

/// Returns the refusal that C reads when a request isn't sealed.
pub(crate) fn asking_refusal(error: RequestError) -> Refusal
    requires { error ≢ NoKeeperToAsk }
    ensures { IsAskingStatus error result.status result.detail }
{
    match error {
        RequestError::NotThatKind => Status::NotThatKind.into(),
        RequestError::Unsupported(number) => Refusal {
            status: Status::Unsupported,
            detail: usize::from(number),
        },
        RequestError::TokenInUse => Status::TokenInUse.into(),
        RequestError::PendingFull => Status::PendingFull.into(),
        RequestError::SequenceExhausted => Status::SequenceExhausted.into(),
        RequestError::TooLong => Status::TooLong.into(),
        RequestError::NoRoom => Status::NoRoom.into(),
        RequestError::KeeperFailed => unreachable!(),
    }
}

/// Returns what was heard, the number of its request, and whether that stays pending, or the refusal that C reads.
pub(crate) fn hearing<'b>(outcome: ClientOutcome<'b>) -> Result<(Opened<'b>, Piv, bool), Refusal>
    ensures opened { IfOk result (λ o. outcome.entry ≡ shown_as o.2 o.0 o.1) }
    ensures refused { IfErr result (λ r. IsHeardStatus outcome.entry r.status r.detail) }
{
    match outcome {
        ClientOutcome::Malformed(error) => Err(error.into()),
        ClientOutcome::NotResponse => Err(Status::NotThatKind.into()),
        ClientOutcome::UnknownToken => Err(Status::UnknownToken.into()),
        ClientOutcome::Unprotected => Err(Status::NoOscore.into()),
        ClientOutcome::Undecodable => Err(Status::Undecodable.into()),
        ClientOutcome::Old => Err(Status::Old.into()),
        ClientOutcome::BadTag => Err(Status::Tag.into()),
        ClientOutcome::BadInner => Err(Status::Inner.into()),
        ClientOutcome::Notified(opened, number) => Ok((opened, number, true)),
        ClientOutcome::Deliver(opened, number) => Ok((opened, number, false)),
    }
}
