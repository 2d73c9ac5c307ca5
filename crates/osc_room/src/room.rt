//! How many bytes are enough for a sealed message.

ghost use Rattle.std.specs.Prelude.{◌≡◌};
ghost use Rattle.osc_room.specs.Room.{room_of};

/// How many bytes a sealed message has at most beyond those of its plain message, without Observe: 48 of the OSCORE option, 10 of the
/// marker, the code inside and the tag, and 2 of deltas inside (RFC 7252, 3.1; RFC 8613, 5.3 and 6.1).
const MOST_GROWTH: usize = 48 + 10 + 2;

/// How many bytes Observe takes outside at most: an option byte and a value of 3 (RFC 7252, 3.1; RFC 7641, 2).
const OBSERVE_LEN: usize = 1 + 3;

/// The most bytes that a sealed message has; own rule.
const MOST_SEALED: usize = 65_535;

/// Returns how many bytes of a buffer are enough to seal a plain message whose datagram has `plain_len` bytes. `observe` says whether the
/// context takes part in Observe: pass `true` where you don't know. Whatever the options, the identifiers and the numbers are, `NoRoom` is
/// then never returned (`enough_room`).
#[must_use]
pub fn room_for(plain_len: usize, observe: bool) -> usize
    ensures { result ≡ room_of plain_len observe }
{
    let growth = if observe {
        MOST_GROWTH + OBSERVE_LEN
    } else {
        MOST_GROWTH
    };
    plain_len.saturating_add(growth).min(MOST_SEALED)
}
