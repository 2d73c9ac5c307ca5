//! The sizes of the structs that C and the library share.

ghost use Rattle.std.specs.Prelude.{◌≡◌};

use crate::guarded_peer::GuardedPeer;
use crate::head_view::HeadView;
use crate::opened_view::{OpenedView, OptionView};
use osc_handle::{ContextHandle, PendingHandle, TicketHandle};
use osc_peer_handle::RecordHandle;

/// The sizes of the structs of `oscore.h` in bytes, as the library has them.
#[repr(C)]
#[derive(Clone, Copy)]
pub struct Sizes {
    pub context: usize,
    pub option: usize,
    pub opened: usize,
    pub request_head: usize,
    pub ticket: usize,
    pub peer: usize,
    pub peer_record: usize,
    pub pending: usize,
}

/// Writes the sizes, so that a caller can compare them with the sizes that its compiler has.
#[unsafe(no_mangle)]
pub extern "C" fn oscore_sizes_v5(sizes: &mut Sizes)
    ensures { sizes.new ≡ record { context = 97; option = 24; opened = 104; request_head = 64; ticket = 40; peer = 232; peer_record = 32; pending = 40 } }
{
    *sizes = Sizes {
        context: size_of::<ContextHandle>(),
        option: size_of::<OptionView<'_>>(),
        opened: size_of::<OpenedView<'_>>(),
        request_head: size_of::<HeadView<'_>>(),
        ticket: size_of::<TicketHandle>(),
        peer: size_of::<GuardedPeer>(),
        peer_record: size_of::<RecordHandle>(),
        pending: size_of::<PendingHandle>(),
    };
}
