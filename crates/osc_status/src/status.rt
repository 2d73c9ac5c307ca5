//! The statuses that calls return.

ghost use Rattle.std.specs.Prelude.{◌≡◌, ◌<◌, length, map, slice_get};
ghost use Rattle.osc_status.specs.Statuses.{code, name_or_unknown, status_name};

/// What a call that is done returns.
pub const DONE: u32 = 0;

/// The names of the statuses, in the order of their numbers from 0. Busy is what C's header answers, where another call of the peer runs.
const NAMES: [&[u8]; 58] = [
    b"Done",
    b"Busy",
    b"BadHandle",
    b"BadNumber",
    b"OldRecord",
    b"SecretLength",
    b"SaltLength",
    b"IdTooLong",
    b"SameIds",
    b"IdContextLength",
    b"DatagramTooLong",
    b"Short",
    b"Version",
    b"TokenLength",
    b"EmptyWithRest",
    b"TokenCut",
    b"Nibble15",
    b"OptionCut",
    b"NumberTooLarge",
    b"EmptyPayload",
    b"OptionOrder",
    b"ValueTooLong",
    b"StaleTicket",
    b"SaveFirst",
    b"LivesExhausted",
    b"TicketSpent",
    b"NotObserving",
    b"NotThatKind",
    b"UnknownToken",
    b"NoOscore",
    b"Undecodable",
    b"NoContext",
    b"WrongContext",
    b"Replay",
    b"Old",
    b"Tag",
    b"Inner",
    b"Challenge",
    b"Unsupported",
    b"NotNotification",
    b"TokenInUse",
    b"PendingFull",
    b"SequenceExhausted",
    b"TooLong",
    b"NoRoom",
    b"NotPending",
    b"NotOneProxyUri",
    b"Mixed",
    b"Scheme",
    b"Fragment",
    b"Character",
    b"Authority",
    b"Userinfo",
    b"Host",
    b"Port",
    b"PartTooLong",
    b"Asked",
    b"SchemeLength",
];

/// Why a call does nothing: the first refusal whose condition holds, in this order, but for SaveFirst and LivesExhausted at a datagram: a
/// number of the peer's own is asked for right after BadHandle, and a received one last. What the calls for forward proxies alone answer
/// stands last, and they judge in an order of their own. A call that is done returns 0, and 1 comes from C's header alone.
#[derive(Clone, Copy, PartialEq, Eq)]
pub enum Status {
    /// The bytes of the handle can't have been written by a call.
    BadHandle = 2,
    /// A number is 2^40 or more, or isn't one that the call takes.
    BadNumber = 3,
    /// A record is of another context, or no save can have written it.
    OldRecord = 4,
    SecretLength = 5,
    SaltLength = 6,
    IdTooLong = 7,
    SameIds = 8,
    IdContextLength = 9,
    DatagramTooLong = 10,
    Short = 11,
    Version = 12,
    TokenLength = 13,
    EmptyWithRest = 14,
    TokenCut = 15,
    Nibble15 = 16,
    OptionCut = 17,
    NumberTooLarge = 18,
    EmptyPayload = 19,
    OptionOrder = 20,
    ValueTooLong = 21,
    /// A ticket is another peer's, or of another life.
    StaleTicket = 22,
    /// A record has to be saved first.
    SaveFirst = 23,
    /// A record would have to be saved first, and a count of 64 bits is at its end.
    LivesExhausted = 24,
    TicketSpent = 25,
    /// The request of a ticket registers no observation.
    NotObserving = 26,
    NotThatKind = 27,
    UnknownToken = 28,
    NoOscore = 29,
    Undecodable = 30,
    NoContext = 31,
    WrongContext = 32,
    Replay = 33,
    /// A later response to the same registration was delivered.
    Old = 34,
    Tag = 35,
    Inner = 36,
    Challenge = 37,
    Unsupported = 38,
    /// A message that is to notify isn't of class 2, or has no Observe.
    NotNotification = 39,
    TokenInUse = 40,
    PendingFull = 41,
    SequenceExhausted = 42,
    TooLong = 43,
    NoRoom = 44,
    NotPending = 45,
    /// The request has no Proxy-Uri, or more than one.
    NotOneProxyUri = 46,
    /// The request has an option of which Proxy-Uri takes the place.
    Mixed = 47,
    /// The value of Proxy-Uri isn't a URI of CoAP, up to `Port`.
    Scheme = 48,
    Fragment = 49,
    Character = 50,
    Authority = 51,
    Userinfo = 52,
    Host = 53,
    Port = 54,
    /// The host, a segment or an argument stands for more than 255 bytes.
    PartTooLong = 55,
    /// The request asks a proxy already.
    Asked = 56,
    /// The scheme doesn't have 1 to 255 bytes.
    SchemeLength = 57,
}

impl Status {
    /// Returns the number that C reads.
    pub fn code(self) -> u32
        ensures { result ≡ code self }
    {
        self as u32
    }
}

/// Returns the name at a number, or Unknown after the last name.
fn name_at<'a>(names: &[&'a [u8]], status: u32) -> &'a [u8]
    ensures { result.now ≡ name_or_unknown (slice_get (map (λ name. name.now) names.now) status) }
{
    if status as usize >= names.len() {
        return b"Unknown";
    }
    names[status as usize]
}

/// Returns the name of the status that has this number, or Unknown if no status has it.
pub fn name_of(status: u32) -> &'static [u8]
    ensures value { result.now ≡ status_name status }
    ensures most { length result.now < 24 }
{
    name_at(&NAMES, status)
}
