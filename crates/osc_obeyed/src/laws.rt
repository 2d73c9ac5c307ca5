//! What holds of bodies, of commands and of fresh requests over all that happens at both ends. These functions exist only for their contracts.

ghost use Rattle.osc_obeyed.specs.Bodies.{RequestBodiesAreCut, ResponseBodiesAreCut};
ghost use Rattle.osc_obeyed.specs.Commands.{OneCommand};
ghost use Rattle.osc_obeyed.specs.Freshness.{FreshOnDemand};

use osc_blocks::joined_is_cut;
use osc_kept::{both_ends, echo_by_numbers};

/// States that an end joins no blocks of two bodies, whatever a network does, and over all lives of both ends. If a server joins the blocks of
/// requests that were delivered, by `osc_blocks::Body::take`, and the client cut one body into all the requests that it sealed for that
/// operation, from the one on that begins the body, then what is joined is that body (`request`). The same holds of a client that joins the
/// blocks of responses that it heard, and of what the server sealed (`response`). A client does so that puts the Request-Tag of each body
/// into its requests, by `osc_blocks::one_request_tag` (RFC 9175, 3.4 and 3.5.1). The list of what happens at both ends has to meet the
/// premises (`IsLawful`).
pub fn bodies_are_cut()
    ensures request { RequestBodiesAreCut }
    ensures response { ResponseBodiesAreCut }
{
    both_ends();
    joined_is_cut();
}

/// States that a request which carries the Echo value of a reply was sealed after that reply, whatever a network does, and over all lives of
/// both ends. So a server that obeys a request only with the value of a challenge that it gave a while ago obeys none that is older than that
/// (RFC 8613, 7.3; RFC 9175, 2.3). The list of what happens at both ends has to meet the premises (`IsLawfulByNumbers`): Echo values are
/// made of numbers, as `osc_fresh::Wishes::challenge` makes them.
pub fn fresh_on_demand()
    ensures { FreshOnDemand }
{
    echo_by_numbers();
}

/// States that a command is obeyed at most once over all lives of both ends, also if it is sealed anew: if the client seals it anew only where
/// it heard of each request for it that this wasn't obeyed (`osc_fresh::Challenged::unobeyed`), and the server obeys no request of which it says so
/// (`osc_fresh::Wishes::challenge`). The list of what happens at both ends has to meet the premises (`IsLawful`).
pub fn one_command()
    ensures { OneCommand }
{
    both_ends();
}
