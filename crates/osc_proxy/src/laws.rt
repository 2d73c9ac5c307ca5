//! What holds for all requests and URIs. Calling one of these functions does nothing: its contract is there for the caller's proof.

ghost use Rattle.osc_proxy.specs.Asking.{SchemeIsTakenOut};
ghost use Rattle.osc_proxy.specs.UriLaws.{PartsAreJoined, UrisAreTheirParts};

/// States that a proxy that takes Proxy-Scheme out again sends on what was sealed: where `ask_proxy` put it, the request without it has the
/// same head, token, options and payload as before, so its protection holds as before (RFC 7252, 5.7.2; RFC 8613, 4.1.3.3).
pub fn proxies_forward_what_was_sealed()
    ensures { SchemeIsTakenOut }
{}

/// States that a URI that is read is its parts, one behind the other: scheme, host, port, path and query (RFC 7252, 6.1 and 6.4; RFC 3986, 3).
pub fn uris_are_their_parts()
    ensures { UrisAreTheirParts }
{}

/// States that a path and a query are their parts, with a slash or an ampersand between them (RFC 7252, 6.4 and 6.5).
pub fn parts_are_joined()
    ensures { PartsAreJoined }
{}
