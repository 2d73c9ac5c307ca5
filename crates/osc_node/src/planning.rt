//! How a response is to be sent, before the peer seals it, and what the message layer notes then (RFC 7252, 5.2).

ghost use Rattle.std.specs.Prelude.{◌≡◌, ◌≤◌, ℕ, IfErr, IfOk, IsErr, Some, length};
ghost use Rattle.osc_coap.specs.declared.message.Kind.{Kind as KindOf};
ghost use Rattle.osc_coap.specs.declared.message.Kind.TheVariants.{Con};
ghost use Rattle.osc_message.specs.HearingCalls.{WayBy};
ghost use Rattle.osc_message.specs.declared.arrival.Way.TheVariants as ways;
ghost use Rattle.osc_message.specs.LayerViews.{layer_of};
ghost use Rattle.osc_message.specs.Views.{counted_of};
ghost use Rattle.osc_node.specs.Planning.{CanSend, Carries, IsPlanned, id_of, type_of};
ghost use Rattle.osc_node.specs.Responding.{IfRefused, IsUnsent, Responds, length_of};

use crate::requesting::Sent;
use crate::responding::Responded;
use crate::send_error::RespondError;
use osc_coap::{Kind, Token};
use osc_message::{Address, Arrived, Awaits, Messages, Outgoing, Separate, Way, make_separate};

/// How a response is to be sent, with its Message ID.
#[derive(Drop)]
pub(crate) enum Plan {
    /// In the ACK of its request.
    InAck(u16),
    /// In a NON.
    Non(u16),
    /// In a CON to this address.
    Con(Address, u16),
}

impl Plan {
    /// Returns the Message ID that the response is sealed with.
    pub(crate) fn message_id(&self) -> u16
        ensures { result ≡ id_of self.now }
    {
        match self {
            Plan::InAck(id) | Plan::Non(id) | Plan::Con(_, id) => *id,
        }
    }

    /// Returns the Type that the response is sent with.
    pub(crate) fn kind(&self) -> Kind
        ensures { result ≡ type_of self.now }
    {
        match self {
            Plan::InAck(_) => Kind::Ack,
            Plan::Non(_) => Kind::Non,
            Plan::Con(_, _) => Kind::Con,
        }
    }
}

/// Copies an address.
fn address_of(bytes: &[u8]) -> Address
    requires { length bytes.now ≤ 28 }
    ensures { result.items ≡ bytes.now }
{
    let mut address = Address::new();
    address.try_extend_from_slice(bytes).unwrap();
    address
}

/// Plans a CON to where a request came from.
fn plan_con<const N: usize, const M: usize>(
    layer: &mut Messages<N, M>,
    now: u64,
    arrived: Arrived,
) -> Result<Plan, RespondError>
    requires { WayBy (layer_of layer.old).came arrived (Some ways.Separate) }
    ensures planned { IfOk result (λ plan. CanSend (layer_of layer.new) arrived Con plan
        × ((request : ℕ) → IsPlanned (counted_of layer.old.ids) (counted_of layer.new.ids) now request plan)) }
    ensures unsent { IfErr result (λ e. IsUnsent (layer_of layer.old) (counted_of layer.old.ids) now arrived Con e) }
    ensures unasked { IfErr result (λ e. IfRefused e (λ r. ⊥)) }
    ensures ungiven { IsErr result → counted_of layer.new.ids ≡ counted_of layer.old.ids }
    ensures same { layer_of layer.new ≡ layer_of layer.old }
{
    let Some((from, _)) = layer.arrivals.sender(arrived.place) else {
        return Err(RespondError::Forgotten);
    };
    if let Err(error) = layer.exchanges.check_begin(from) {
        return Err(RespondError::Layer(error));
    }
    let to = address_of(from);
    match layer.ids.give(now) {
        Some(id) => Ok(Plan::Con(to, id)),
        None => Err(RespondError::NoMessageId),
    }
}

/// Plans the response to a request of this Type, with this Message ID.
pub(crate) fn plan_response<const N: usize, const M: usize>(
    layer: &mut Messages<N, M>,
    now: u64,
    arrived: Arrived,
    kind: Kind,
    request: u16,
) -> Result<Plan, RespondError>
    ensures planned { IfOk result (λ plan. CanSend (layer_of layer.new) arrived kind plan × IsPlanned (counted_of layer.old.ids) (counted_of layer.new.ids) now request plan) }
    ensures unsent { IfErr result (λ e. IsUnsent (layer_of layer.old) (counted_of layer.old.ids) now arrived kind e) }
    ensures unasked { IfErr result (λ e. IfRefused e (λ r. ⊥)) }
    ensures ungiven { IsErr result → counted_of layer.new.ids ≡ counted_of layer.old.ids }
    ensures same { layer_of layer.new ≡ layer_of layer.old }
{
    match layer.arrivals.way(arrived) {
        None => Err(RespondError::Forgotten),
        Some(Way::InAck) => Ok(Plan::InAck(request)),
        Some(Way::Separate) => match kind {
            Kind::Con => plan_con(layer, now, arrived),
            Kind::Non | Kind::Ack | Kind::Rst => match layer.ids.give(now) {
                Some(id) => Ok(Plan::Non(id)),
                None => Err(RespondError::NoMessageId),
            },
        },
    }
}

/// Notes that a response was sealed, which is so many bytes at the front of `out`, and makes it a CON if that is planned.
pub(crate) fn carry_out<const N: usize, const M: usize>(
    layer: &mut Messages<N, M>,
    now: u64,
    random: u16,
    arrived: Arrived,
    plan: Plan,
    token: Token,
    sealed: &mut [u8],
) -> Responded
    requires { (kind : KindOf) × CanSend (layer_of layer.old) arrived kind plan }
    ensures responds { (kind : KindOf) → CanSend (layer_of layer.old) arrived kind plan
        → Responds (layer_of layer.old) (layer_of layer.new) now random arrived kind (id_of plan) sealed.old sealed.new result }
    ensures carries { Carries plan result }
    ensures length { length_of result ≡ length sealed.new }
    ensures ids { layer.new.ids ≡ layer.old.ids }
{
    let len = sealed.len();
    let _way = layer.arrivals.answer(arrived);
    match plan {
        Plan::InAck(_) => Responded::InAck(len),
        Plan::Non(_) => Responded::Non(len),
        Plan::Con(to, message_id) => {
            make_separate(sealed, Separate::Con, message_id);
            let outgoing = Outgoing {
                to,
                message_id,
                token,
                awaits: Awaits::Acknowledgement,
            };
            match layer.exchanges.begin(outgoing, now, random) {
                Ok(call) => Responded::Con(Sent { call, len }),
                Err(_) => unreachable!(),
            }
        }
    }
}
