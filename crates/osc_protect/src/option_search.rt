//! Finds options by their numbers (RFC 7252, 5.10; RFC 8613, 2 and 4.1).

ghost use Rattle.std.specs.Prelude.{◌≡◌, ◌∷◌, ℕ, List};
ghost use Rattle.osc_coap.specs.OptionNumbers.{oscore, uri_host, uri_port};
ghost use Rattle.osc_coap.specs.Search.{first_of, has_number, values_at};
ghost use Rattle.osc_coap.specs.Views.{options_left};
ghost use Rattle.osc_protect.specs.Found.{first_number};
ghost use Rattle.osc_protect.specs.Views.{shown};
ghost use Rattle.osc_protect.specs.OptionSets.{is_barred, is_proxy, is_unsupported};

use crate::option_sets::{is_barred, is_proxy, is_unsupported};
use osc_coap::Options;
use osc_coap::option_numbers::{OSCORE, URI_HOST, URI_PORT};
use osc_context::Features;

/// How many options of one number there are, and the value if there is exactly one.
#[derive(Clone, Copy)]
pub(crate) enum Found<'a> {
    Nothing,
    One(&'a [u8]),
    More,
}

impl<'a> Found<'a> {
    ghost use Rattle.osc_protect.specs.Found.{FindsBefore};

    /// Adds one more value to what was found.
    fn and(self, value: &'a [u8]) -> Found<'a>
        ensures { (rest values : List (List ℕ)) → FindsBefore self.entry (value.now ∷ rest) values → FindsBefore result rest values }
    {
        match self {
            Found::Nothing => Found::One(value),
            Found::One(_) | Found::More => Found::More,
        }
    }
}

/// What the outer options say about the protection.
#[derive(Clone, Copy)]
pub(crate) struct OuterOptions<'a> {
    pub(crate) oscore: Found<'a>,
    pub(crate) has_proxy: bool,
}

ghost use Rattle.osc_protect.specs.Found.{Finds};

impl<'a> OuterOptions<'a> {
    /// Goes through the options once, and finds the OSCORE options and whether any option is for proxies.
    pub(crate) fn of(options: Options<'a>) -> OuterOptions<'a>
        ensures oscore { Finds result.oscore (values_at oscore (options_left options.entry)) }
        ensures proxy { result.has_proxy ≡ has_number is_proxy (options_left options.entry) }
    {
        let mut found = Found::Nothing;
        let mut has_proxy = false;
        for (number, value) in options {
            if number == OSCORE {
                found = found.and(value);
            }
            has_proxy = has_proxy || is_proxy(number);
        }
        OuterOptions {
            oscore: found,
            has_proxy,
        }
    }
}

/// The first Uri-Host and the first Uri-Port.
#[derive(Clone, Copy)]
pub(crate) struct OuterUri<'a> {
    pub(crate) host: Option<&'a [u8]>,
    pub(crate) port: Option<&'a [u8]>,
}

impl<'a> OuterUri<'a> {
    /// Goes through the options once.
    pub(crate) fn of(options: Options<'a>) -> OuterUri<'a>
        ensures host { shown result.host ≡ first_of (values_at uri_host (options_left options.entry)) }
        ensures port { shown result.port ≡ first_of (values_at uri_port (options_left options.entry)) }
    {
        let mut host = None;
        let mut port = None;
        for (number, value) in options {
            if number == URI_HOST && host.is_none() {
                host = Some(value);
            }
            if number == URI_PORT && port.is_none() {
                port = Some(value);
            }
        }
        OuterUri { host, port }
    }
}

/// Returns whether any of the options may not stand inside the protection.
pub(crate) fn has_barred(options: Options<'_>, features: Features) -> bool
    ensures { result ≡ has_number (is_barred features) (options_left options.entry) }
{
    for (number, _) in options {
        if is_barred(features, number) {
            return true;
        }
    }
    false
}

/// Returns the number of the first option that keeps a message from being sealed.
pub(crate) fn first_unsupported(options: Options<'_>, features: Features) -> Option<u16>
    ensures { result ≡ first_number (is_unsupported features) (options_left options.entry) }
{
    for (number, _) in options {
        if is_unsupported(features, number) {
            return Some(number);
        }
    }
    None
}
