//! Which options a protected message doesn't have at all, doesn't have inside, or has outside (RFC 8613, 4.1).

ghost use Rattle.std.specs.Prelude.{◌≡◌, true};
ghost use Rattle.osc_protect.specs.OptionSets.{counts_as_observe, is_barred, is_behind, is_block, is_left_out, is_proxy, is_unsupported};

use osc_coap::option_numbers::{
    BLOCK1, BLOCK2, OBSERVE, OSCORE, PROXY_SCHEME, PROXY_URI, Q_BLOCK1, Q_BLOCK2,
};
use osc_coap::{Class, class_of};
use osc_context::Features;

/// The most bytes of Observe (RFC 7641, 2).
const MOST_OBSERVE: usize = 3;

/// Returns whether an option of this number is left out. Own rule: Observe and block-wise transfer are, each unless the context takes part
/// in it.
fn is_left_out(features: Features, number: u16) -> bool
    ensures { result ≡ is_left_out features number }
{
    !features.observe && number == OBSERVE || !features.blocks && is_block(number)
}

/// Returns whether an option of this number is of block-wise transfer (RFC 7959, 2.1; RFC 9177, 4.1).
fn is_block(number: u16) -> bool
    ensures { result ≡ is_block number }
{
    matches!(number, BLOCK2 | BLOCK1 | Q_BLOCK1 | Q_BLOCK2)
}

/// Returns whether an option of this number stands outside behind the OSCORE option (RFC 7252, 3.1; RFC 8613, 4.1.2).
pub(crate) fn is_behind(number: u16) -> bool
    ensures { result ≡ is_behind number }
{
    number > OSCORE && matches!(class_of(number), Class::U)
}

/// Returns whether an option of this number is for proxies.
pub(crate) fn is_proxy(number: u16) -> bool
    ensures { result ≡ is_proxy number }
{
    number == PROXY_URI || number == PROXY_SCHEME
}

/// Returns whether a message with an option of this number can't be sealed. Sealing itself makes the OSCORE option.
pub(crate) fn is_unsupported(features: Features, number: u16) -> bool
    ensures { result ≡ is_unsupported features number }
{
    is_left_out(features, number) || is_proxy(number) || number == OSCORE
}

/// Returns whether an option of this number may not stand inside the protection. Own rule: an option that is left out may not, nor may one
/// of class U, which stands outside.
pub(crate) fn is_barred(features: Features, number: u16) -> bool
    ensures { result ≡ is_barred features number }
{
    is_left_out(features, number) || matches!(class_of(number), Class::U)
}

/// Returns whether an option counts as Observe, if one is sought. One with a longer value is as if unknown (RFC 7252, 5.4.3).
pub(crate) fn is_valid_observe(number: u16, value: &[u8]) -> bool
    ensures { result ≡ counts_as_observe true (number, value.now) }
{
    number == OBSERVE && value.len() <= MOST_OBSERVE
}
