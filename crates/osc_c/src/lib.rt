//! OSCORE (RFC 8613) for C. `bindings/c/oscore.h` declares these functions. The caller owns all memory; nothing allocates, calls back
//! or is global. Each call returns a status, and 0 means done. Whatever the bytes of a handle or of a message are, a call is safe and
//! ends: it refuses what can't be used, by name.
#![tactic(auto)]

mod derivation;
mod guarded_peer;
mod head_view;
mod names;
mod opened_view;
mod opening;
mod peer;
mod peer_answering;
mod peer_asking;
mod peer_finding;
mod proxies;
mod refusals;
mod sealing;
mod separating;
mod sizes;
mod writing;
