//! What is noted about a run, in order.

/// What a request and the reply to it say: the request's token, and the event in which the request was sealed.
#[derive(Clone, Copy, PartialEq, Eq)]
pub struct Payload {
    pub token: u8,
    pub event: u8,
}

impl Payload {
    /// Reads the payload in some bytes.
    pub fn read(bytes: &[u8]) -> Option<Payload> {
        match bytes {
            [token, event] => Some(Payload {
                token: *token,
                event: *event,
            }),
            _ => None,
        }
    }
}

/// A request, with its number.
#[derive(Clone, Copy, PartialEq, Eq)]
pub struct Request {
    pub number: u64,
    pub payload: Payload,
}

/// A response: its token, the number of its request, and its own Partial IV, if it has one. A challenge has no payload.
#[derive(Clone, Copy, PartialEq, Eq)]
pub struct Response {
    pub token: u8,
    pub request: u64,
    pub own: Option<u64>,
    pub payload: Option<Payload>,
}

/// What an end did.
#[derive(Clone, Copy, PartialEq, Eq)]
pub enum Entry {
    /// The client sealed a request.
    RequestSealed(Request),
    /// The server delivered a request to its application.
    RequestDelivered(Request),
    /// The server sealed a response.
    ResponseSealed(Response),
    /// The client delivered a response.
    ResponseDelivered(Response),
}

/// How many runs there were, and what was delivered in them.
#[derive(Clone, Copy, Debug, PartialEq, Eq)]
pub struct Totals {
    pub runs: u64,
    pub requests: u64,
    pub replies: u64,
    pub challenges: u64,
}

impl Totals {
    /// Makes the totals of so many runs in which nothing was delivered.
    pub fn none_of(runs: u64) -> Totals {
        Totals {
            runs,
            requests: 0,
            replies: 0,
            challenges: 0,
        }
    }

    /// Returns what was delivered in one run.
    pub fn of(log: &[Entry]) -> Totals {
        let mut totals = Totals::none_of(1);
        for entry in log {
            totals.count(*entry);
        }
        totals
    }

    fn count(&mut self, entry: Entry) {
        let counted = match entry {
            Entry::RequestDelivered(_) => &mut self.requests,
            Entry::ResponseDelivered(
                Response {
                    payload: Some(_),
                    ..
                },
            ) => &mut self.replies,
            Entry::ResponseDelivered(_) => &mut self.challenges,
            _ => return,
        };
        *counted = counted.saturating_add(1);
    }

    /// Adds the totals of another run.
    pub fn add(&mut self, run: Totals) {
        self.runs = self.runs.saturating_add(run.runs);
        self.requests = self.requests.saturating_add(run.requests);
        self.replies = self.replies.saturating_add(run.replies);
        self.challenges = self.challenges.saturating_add(run.challenges);
    }
}
