//! What a protected request shows to a reader without the key, as C reads it.

ghost use Rattle.std.specs.Prelude.{◌≡◌, ◌≢◌, length};
ghost use Rattle.osc_protect.specs.Head.{Head, HasNoRequestHead, HasRequestHead};
ghost use Rattle.osc_protect.specs.declared.head_error.HeadError.{HeadError as HeadErrorOf};
ghost use Rattle.osc_protect.specs.Views.{seen_head};
ghost use Rattle.osc_c.specs.Opened.{ShowsHead};
ghost use Rattle.osc_status.specs.Statuses.{code, head_detail, head_status};

use crate::opened_view::kind_code;
use osc_protect::{RequestHead, head_of_request};
use osc_status::{DONE, Refusal};

/// The head of a protected request. None of it counts as protected yet. Its slices lie in the datagram.
#[repr(C)]
#[derive(Clone, Copy)]
pub struct HeadView<'b> {
    /// 0 for CON, 1 for NON.
    pub kind: u8,
    pub message_id: u16,
    pub token: [u8; 8],
    pub token_len: u8,
    pub number: u64,
    pub kid: &'b [u8],
    pub has_kid_context: bool,
    pub kid_context: &'b [u8],
}

/// Shows a head to C.
fn show_head<'b>(head: &RequestHead<'b>, view: &mut HeadView<'b>)
    ensures { ShowsHead view.new (seen_head head.now) }
{
    let token = head.token.as_slice();
    view.token[..token.len()].copy_from_slice(token);
    view.token_len = token.len() as u8;
    view.kind = kind_code(head.kind);
    view.message_id = head.message_id;
    view.number = head.number.number();
    view.kid = head.kid;
    view.has_kid_context = head.kid_context.is_some();
    view.kid_context = head.kid_context.unwrap_or(&[]);
}

/// Reads what a protected request shows to a reader without the key (RFC 8613, 8.2): its kid and kid context tell which context it
/// names. A refusal is one of the datagram's faults with its place, NotThatKind, NoOscore or Undecodable, in this order.
#[unsafe(no_mangle)]
pub extern "C" fn oscore_head_v5<'b>(
    datagram: &'b [u8],
    view: &mut HeadView<'b>,
    detail: &mut usize,
) -> u32
    ensures head { result ≡ 0 → (h : Head) × HasRequestHead datagram.now h × ShowsHead view.new h }
    ensures accepts { (h : Head) → HasRequestHead datagram.now h → result ≡ 0 }
    ensures refused { result ≢ 0 → (e : HeadErrorOf) × (result ≡ code (head_status e)) × (detail.new ≡ head_detail e) × HasNoRequestHead datagram.now e }
    ensures refuses { (e : HeadErrorOf) → HasNoRequestHead datagram.now e → (result ≡ code (head_status e)) × (detail.new ≡ head_detail e) }
    ensures unchanged { result ≢ 0 → view.new ≡ view.old }
{
    match head_of_request(datagram) {
        Ok(head) => {
            show_head(&head, view);
            DONE
        }
        Err(error) => {
            let refusal = Refusal::from(error);
            *detail = refusal.detail;
            refusal.status.code()
        }
    }
}
