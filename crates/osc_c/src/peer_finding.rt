//! Which of several peers a request is for, for C.

ghost use Rattle.std.specs.Prelude.{◌≡◌, ◌≢◌, ℕ, IfNone, IfSome};
ghost use Rattle.osc_protect.specs.Head.{Head, HasNoRequestHead, HasRequestHead};
ghost use Rattle.osc_protect.specs.Views.{shown};
ghost use Rattle.osc_protect.specs.declared.head_error.HeadError.{HeadError as HeadErrorOf};
ghost use Rattle.osc_c.specs.PeerFinding.{HoldsAt, HoldsFirstAt, RefusesFinding, answering, named_by};
ghost use Rattle.osc_status.specs.Statuses.{code, head_detail, head_status};
ghost use Rattle.osc_status.specs.declared.status.Status.{Status as StatusOf};

use crate::guarded_peer::GuardedPeer;
use osc_protect::head_of_request;
use osc_status::{DONE, Refusal, Status};

/// Returns the index of the first of these peers whose context's requests have this kid, and this kid context or none.
fn index_of(peers: &[GuardedPeer], kid: &[u8], kid_context: Option<&[u8]>) -> Option<usize>
    ensures found { IfSome result (λ i. HoldsFirstAt peers.now i (answering kid.now (shown kid_context.entry))) }
    ensures none { IfNone result ((i : ℕ) → HoldsAt peers.now i (answering kid.now (shown kid_context.entry)) → ⊥) }
{
    for index in 0..peers.len() {
        let context = &peers[index].inside.server.server.slot.context;
        if context.is_whole() && context.answers_to(kid, kid_context) {
            return Some(index);
        }
    }
    None
}

/// Writes the index of the first of these peers whose context a request names, by its kid and its kid context (RFC 8613, 8.2). It passes over
/// peers whose context no call can have written, as one that was never begun. A refusal is one of the datagram's faults with its place,
/// NotThatKind, NoOscore, Undecodable or NoContext, in this order, and changes nothing.
#[unsafe(no_mangle)]
pub extern "C" fn oscore_peer_find_v5(
    peers: &[GuardedPeer],
    datagram: &[u8],
    index: &mut usize,
    detail: &mut usize,
) -> u32
    ensures found { result ≡ 0 → (h : Head) × HasRequestHead datagram.now h × (n : ℕ) × HoldsFirstAt peers.now index.new (named_by h n) }
    ensures accepts { (h : Head) (i n : ℕ) → HasRequestHead datagram.now h → HoldsAt peers.now i (named_by h n) → result ≡ 0 }
    ensures refused { result ≢ 0 → (status : StatusOf) × (result ≡ code status) × RefusesFinding peers.now datagram.now status detail.new }
    ensures refuses { (e : HeadErrorOf) → HasNoRequestHead datagram.now e → (result ≡ code (head_status e)) × (detail.new ≡ head_detail e) }
    ensures unchanged { result ≢ 0 → index.new ≡ index.old }
{
    let head = match head_of_request(datagram) {
        Ok(head) => head,
        Err(error) => {
            let refusal = Refusal::from(error);
            *detail = refusal.detail;
            return refusal.status.code();
        }
    };
    match index_of(peers, head.kid, head.kid_context) {
        Some(place) => {
            *index = place;
            DONE
        }
        None => {
            *detail = 0;
            Status::NoContext.code()
        }
    }
}
