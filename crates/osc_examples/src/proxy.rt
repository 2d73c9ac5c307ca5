//! The example of osc_proxy.

ghost use Rattle.std.specs.Prelude.{IfOk, codes, take};
ghost use Rattle.osc_coap.specs.Datagram.{IsDatagram, Parts};
ghost use Rattle.osc_proxy.specs.Asking.{asked};

use osc_proxy::{AskProxyError, ask_proxy};

/// Asks a proxy for a sealed request, which it sends on by CoAP over UDP.
pub fn ask_by_coap(sealed: &[u8], out: &mut [u8]) -> Result<usize, AskProxyError>
    ensures { IfOk result (λ n. (p : Parts) → IsDatagram p sealed.now
        → IsDatagram (asked (codes "coap") p) (take n out.new)) }
{
    ask_proxy(sealed, b"coap", out)
}
