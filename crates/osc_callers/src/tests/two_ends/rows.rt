//! Which runs there are, and what is delivered in them. A comment says how totals follow from the rules. Totals with no comment were
//! counted by a model of the same rules apart from this program, with nothing but numbers, windows and gates.

use super::log::Totals;
use super::plan::End;

/// How many calls of a keeper may go wrong: a load and a save in each of two lives.
const CALLS: u64 = 4;

/// Runs in both orders, with each fate of a datagram, each new life of an end, and each wrong call of its keeper, as far as the row has
/// them. Each is combined with each, and left out too. The totals are of the runs in which the whole plan comes about.
#[derive(Clone, Copy)]
pub struct Row {
    pub name: &'static str,
    pub end: End,
    pub has_fates: bool,
    pub has_new_lives: bool,
    pub has_wrong_calls: bool,
    /// No run has more events than this.
    pub events: u8,
    /// No run has more datagrams than this.
    pub datagrams: u64,
    pub totals: Totals,
}

impl Row {
    /// Returns how many fates there are: three for each datagram.
    pub fn fates(&self) -> u64 {
        if self.has_fates {
            self.datagrams.saturating_mul(3)
        } else {
            0
        }
    }

    /// Returns how many new lives there are: two after no event, and two after each event.
    pub fn new_lives(&self) -> u8 {
        if self.has_new_lives {
            self.events.saturating_add(1).saturating_mul(2)
        } else {
            0
        }
    }

    /// Returns how many wrong calls there are: each call in two ways.
    pub fn wrong_calls(&self) -> u64 {
        if self.has_wrong_calls { 2 * CALLS } else { 0 }
    }
}

/// The client begins new lives.
pub const OF_CLIENT: [Row; 4] = [
    // Both requests and both replies, in both orders.
    Row {
        name: "nothing",
        end: End::Client,
        has_fates: false,
        has_new_lives: false,
        has_wrong_calls: false,
        events: 8,
        datagrams: 4,
        totals: Totals {
            runs: 2,
            requests: 4,
            replies: 4,
            challenges: 0,
        },
    },
    // Four datagrams. A lost request costs its own delivery and its reply's. A lost reply costs its own delivery. A datagram that comes
    // again costs nothing.
    Row {
        name: "fates",
        end: End::Client,
        has_fates: true,
        has_new_lives: false,
        has_wrong_calls: false,
        events: 10,
        datagrams: 5,
        totals: Totals {
            runs: 26,
            requests: 48,
            replies: 44,
            challenges: 0,
        },
    },
    // After each of eight events or after none, in two ways. A reply is delivered unless the new life stands between its request and it. If
    // the new life stands between the requests, the second has the number 64: if it is delivered first, it makes the other too old.
    Row {
        name: "new lives",
        end: End::Client,
        has_fates: false,
        has_new_lives: true,
        has_wrong_calls: false,
        events: 8,
        datagrams: 4,
        totals: Totals {
            runs: 38,
            requests: 74,
            replies: 28,
            challenges: 0,
        },
    },
    Row {
        name: "fates and new lives",
        end: End::Client,
        has_fates: true,
        has_new_lives: true,
        has_wrong_calls: false,
        events: 10,
        datagrams: 5,
        totals: Totals {
            runs: 510,
            requests: 946,
            replies: 360,
            challenges: 0,
        },
    },
];

/// The server begins new lives.
pub const OF_SERVER: [Row; 2] = [
    // A request that comes after the new life is challenged, and is delivered when it comes with the Echo value. If that happens to both,
    // in reverse order the first to come makes the other too old. No request that was delivered before is answered.
    Row {
        name: "new lives",
        end: End::Server,
        has_fates: false,
        has_new_lives: true,
        has_wrong_calls: false,
        events: 14,
        datagrams: 8,
        totals: Totals {
            runs: 38,
            requests: 70,
            replies: 54,
            challenges: 28,
        },
    },
    Row {
        name: "fates and new lives",
        end: End::Server,
        has_fates: true,
        has_new_lives: true,
        has_wrong_calls: false,
        events: 16,
        datagrams: 9,
        totals: Totals {
            runs: 630,
            requests: 1056,
            replies: 854,
            challenges: 628,
        },
    },
];

/// The keeper of an end goes wrong, and the end may begin a new life too.
pub const OF_KEEPERS: [Row; 4] = [
    // A wrong load costs nothing. A wrong save costs the request that it was made for.
    Row {
        name: "wrong calls of the client",
        end: End::Client,
        has_fates: false,
        has_new_lives: false,
        has_wrong_calls: true,
        events: 8,
        datagrams: 4,
        totals: Totals {
            runs: 10,
            requests: 16,
            replies: 16,
            challenges: 0,
        },
    },
    Row {
        name: "wrong calls and new lives of the client",
        end: End::Client,
        has_fates: false,
        has_new_lives: true,
        has_wrong_calls: true,
        events: 8,
        datagrams: 4,
        totals: Totals {
            runs: 246,
            requests: 422,
            replies: 160,
            challenges: 0,
        },
    },
    // Wrong calls cost nothing. If the first save kept its number, the server starts as it does after a restart.
    Row {
        name: "wrong calls of the server",
        end: End::Server,
        has_fates: false,
        has_new_lives: false,
        has_wrong_calls: true,
        events: 14,
        datagrams: 8,
        totals: Totals {
            runs: 10,
            requests: 19,
            replies: 19,
            challenges: 4,
        },
    },
    Row {
        name: "wrong calls and new lives of the server",
        end: End::Server,
        has_fates: false,
        has_new_lives: true,
        has_wrong_calls: true,
        events: 20,
        datagrams: 12,
        totals: Totals {
            runs: 322,
            requests: 549,
            replies: 421,
            challenges: 358,
        },
    },
];
