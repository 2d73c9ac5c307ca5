//! What a message layer keeps in mind of a message that was opened (RFC 7252, 4.5 and 5.2).

ghost use Rattle.std.specs.Prelude.{◌≡◌, ℕ, false, true, IfNone, IfSome};
ghost use Rattle.osc_message.specs.HearingCalls.{IsFirstReason};
ghost use Rattle.osc_message.specs.LayerViews.{layer_of};
ghost use Rattle.osc_message.specs.MessageIds.{Waits};
ghost use Rattle.osc_message.specs.Views.{counted_of};
ghost use Rattle.osc_message.specs.declared.arrivals.NoteError.{NoteError as NoteErrorOf};
ghost use Rattle.osc_node.specs.Deciding.{IsReplyId, Keeps, KeepsAnswered, KeepsRequest, KeepsResponse, GivesReplyId};

use osc_endpoint::Decision;
use osc_message::{Address, Arrived, Heading, Incomer, Messages};

/// Returns the Message ID of a reply to a request, if it can have one: that of the request in an ACK, else the next one.
pub(crate) fn reply_id<const N: usize, const M: usize>(
    layer: &Messages<N, M>,
    now: u64,
    heading: Heading,
) -> Option<u16>
    ensures some { IfSome result (λ id. IsReplyId (counted_of layer.now.ids) now heading id) }
    ensures none { IfNone result ((heading.confirmable ≡ false) × Waits (counted_of layer.now.ids) (counted_of layer.now.ids) now) }
{
    if heading.confirmable {
        Some(heading.message_id)
    } else {
        layer.ids.next(now)
    }
}

/// Keeps a request in mind.
fn note_asked<const N: usize, const M: usize>(
    layer: &mut Messages<N, M>,
    now: u64,
    from: Address,
    heading: Heading,
) -> Arrived
    requires { (e : NoteErrorOf) → IsFirstReason (layer_of layer.old).came e → ⊥ }
    ensures came { Keeps (layer_of layer.old).came (layer_of layer.new).came from.items heading true now result }
    ensures sent { (layer_of layer.new).sent ≡ (layer_of layer.old).sent }
    ensures ids { layer.new.ids ≡ layer.old.ids }
{
    let incomer = Incomer {
        from,
        message_id: heading.message_id,
        confirmable: heading.confirmable,
        awaits_answer: true,
    };
    match layer.arrivals.note(incomer, now) {
        Ok(arrived) => arrived,
        Err(_) => unreachable!(),
    }
}

/// Keeps a request in mind that was challenged, with the challenge as its answer.
fn note_challenged<const N: usize, const M: usize>(
    layer: &mut Messages<N, M>,
    now: u64,
    from: Address,
    heading: Heading,
) -> Arrived
    requires { (e : NoteErrorOf) → IsFirstReason (layer_of layer.old).came e → ⊥ }
    ensures came { KeepsAnswered (layer_of layer.old).came (layer_of layer.new).came from.items heading now result }
    ensures sent { (layer_of layer.new).sent ≡ (layer_of layer.old).sent }
    ensures ids { (id : ℕ) → IsReplyId (counted_of layer.old.ids) now heading id → GivesReplyId (counted_of layer.old.ids) (counted_of layer.new.ids) now heading id }
{
    let arrived = note_asked(layer, now, from, heading);
    let _way = layer.arrivals.answer(arrived);
    if !heading.confirmable {
        let _id = layer.ids.give(now);
    }
    arrived
}

/// Keeps a request in mind if it was delivered or challenged.
pub(crate) fn note_request<const N: usize, const M: usize>(
    layer: &mut Messages<N, M>,
    now: u64,
    from: Address,
    heading: Heading,
    decision: &Decision,
) -> Option<Arrived>
    requires { (e : NoteErrorOf) → IsFirstReason (layer_of layer.old).came e → ⊥ }
    ensures came { (id : ℕ) → IsReplyId (counted_of layer.old.ids) now heading id → KeepsRequest (layer_of layer.old).came (layer_of layer.new).came
        (counted_of layer.old.ids) (counted_of layer.new.ids) from.items heading now id decision.now result }
    ensures sent { (layer_of layer.new).sent ≡ (layer_of layer.old).sent }
{
    match decision {
        Decision::Deliver(_, _) => Some(note_asked(layer, now, from, heading)),
        Decision::Challenge { .. } => Some(note_challenged(layer, now, from, heading)),
        Decision::Malformed(_)
        | Decision::NotRequest
        | Decision::Plain
        | Decision::Undecodable
        | Decision::NoContext
        | Decision::Replay
        | Decision::BadTag
        | Decision::BadInner
        | Decision::SequenceExhausted => None,
    }
}

/// Keeps a response in mind that was delivered, if it is a CON and there is a place: its ACK is all that is sent.
pub(crate) fn note_response<const N: usize, const M: usize>(
    layer: &mut Messages<N, M>,
    now: u64,
    from: Address,
    heading: Heading,
)
    ensures came { KeepsResponse (layer_of layer.old).came (layer_of layer.new).came from.items heading now }
    ensures sent { (layer_of layer.new).sent ≡ (layer_of layer.old).sent }
    ensures ids { layer.new.ids ≡ layer.old.ids }
{
    if !heading.confirmable {
        return;
    }
    let incomer = Incomer {
        from,
        message_id: heading.message_id,
        confirmable: true,
        awaits_answer: false,
    };
    let _noted = layer.arrivals.note(incomer, now);
}
