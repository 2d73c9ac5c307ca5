//! A client and a server of one context that takes part in block-wise transfer, and messages with one Block option.

ghost use Rattle.std.specs.Prelude.{◌≤◌, length};

use osc_blocks::Block;
use osc_coap::{Kind, Options, Token, Writer, parse};
use osc_context::{Context, Features, Params, Piv};
use osc_endpoint::{Client, ClientOutcome, Fresh, Outcome, Server, Start, Ticket};
use osc_window::WindowSize;
use std::process::Abort;

// RFC 8613, C.1.1.
const SECRET: [u8; 16] = [1, 2, 3, 4, 5, 6, 7, 8, 9, 10, 11, 12, 13, 14, 15, 16];

const TOKEN: [u8; 2] = [0xb1, 0x0c];

// RFC 9175, 3.2.1.
const REQUEST_TAG: u16 = 292;

/// A message with one Block option: its code, the option's number, what the option says, its Request-Tag, or no bytes if it has none, and
/// the payload.
#[derive(Clone, Copy)]
pub struct Part<'a> {
    pub code: u8,
    pub number: u16,
    pub block: Block,
    pub tag: &'a [u8],
    pub payload: &'a [u8],
}

/// Both ends.
#[derive(Drop)]
pub struct Ends {
    client: Client<1>,
    server: Server,
}

fn context<'x>(rt: &impl Abort, sender: &'x [u8], recipient: &'x [u8]) -> Context {
    let params = Params {
        secret: &SECRET,
        salt: &[],
        id_context: None,
        sender,
        recipient,
    };
    let context = Context::derive(params).expect(rt, "a context");
    context.with_features(Features {
        observe: false,
        blocks: true,
    })
}

/// Writes a plain message. Returns how many bytes it takes at the front of `out`.
fn write(rt: &impl Abort, kind: Kind, part: &Part<'_>, out: &mut [u8]) -> usize {
    let mut token = Token::new();
    token.try_extend_from_slice(&TOKEN).expect(rt, "a token");
    let mut writer = Writer::new(out, kind, part.code, 1, &token).expect(rt, "room");
    let value = part.block.write();
    writer
        .option(part.number, value.as_slice())
        .expect(rt, "room for an option");
    if !part.tag.is_empty() {
        writer
            .option(REQUEST_TAG, part.tag)
            .expect(rt, "room for the tag");
    }
    writer
        .payload(part.payload)
        .expect(rt, "room for a payload");
    writer.finish()
}

/// Returns what the first option of this number says.
fn block_in(rt: &impl Abort, options: Options<'_>, number: u16) -> Block {
    let value = options.first(number).expect(rt, "a Block option");
    Block::read(value).expect(rt, "a block")
}

/// Returns the value of Request-Tag, or no bytes if there is none.
fn tag_in(options: Options<'_>) -> &[u8] {
    match options.first(REQUEST_TAG) {
        Some(tag) => tag,
        None => &[],
    }
}

impl Ends {
    /// Starts both ends at 0.
    pub fn start(rt: &impl Abort) -> Ends {
        let zero = Piv::new(0).expect(rt, "a number");
        let mut server = Server::new();
        server
            .add(
                context(rt, &[1], &[]),
                Start::Fresh(zero),
                WindowSize::default(),
            )
            .expect(rt, "a context");
        Ends {
            client: Client::new(context(rt, &[], &[1]), zero, 60_000),
            server,
        }
    }

    /// Returns the number of the client's next request.
    pub fn upcoming(&self, rt: &impl Abort) -> Piv {
        Piv::new(self.client.next()).expect(rt, "a number")
    }

    /// Has the client seal a request, which the server delivers.
    pub fn ask<'b>(
        &mut self,
        rt: &impl Abort,
        part: &Part<'_>,
        room: &'b mut [u8; 1100],
    ) -> (Part<'b>, Ticket) {
        let len = self.send(rt, part, room);
        self.take_request(rt, part.number, &mut room[..len])
    }

    /// Has the server seal the reply to a request, which the client delivers. Returns the number of the request too.
    pub fn answer<'b>(
        &mut self,
        rt: &impl Abort,
        ticket: Ticket,
        part: &Part<'_>,
        room: &'b mut [u8; 1100],
    ) -> (Part<'b>, Piv) {
        let len = self.reply(rt, ticket, part, room);
        self.take_response(rt, part.number, &mut room[..len])
    }

    /// Has the client seal a request, and give up on the response. Returns how many bytes it takes at the front of `out`.
    pub fn send_once(&mut self, rt: &impl Abort, part: &Part<'_>, out: &mut [u8]) -> usize
        ensures { result ≤ length out.new }
    {
        let len = self.send(rt, part, out);
        let _pending = self.client.forget(&TOKEN);
        len
    }

    /// Has the client seal a request. Returns how many bytes it takes at the front of `out`.
    fn send(&mut self, rt: &impl Abort, part: &Part<'_>, out: &mut [u8]) -> usize
        ensures { result ≤ length out.new }
    {
        let mut text = [0u8; 1100];
        let len = write(rt, Kind::Con, part, &mut text);
        let plain = parse(text.get(..len).expect(rt, "its bytes")).expect(rt, "a message");
        self.client.request(0, &plain, out).expect(rt, "a request")
    }

    /// Passes a request to the server, which delivers it.
    pub fn take_request<'b>(
        &mut self,
        rt: &impl Abort,
        number: u16,
        datagram: &'b mut [u8],
    ) -> (Part<'b>, Ticket) {
        let fresh = Fresh {
            echo: [0; 8],
            mid: 1,
        };
        let mut out = [0u8; 64];
        let Outcome::Deliver(opened, ticket) = self
            .server
            .take(0, fresh, datagram, &mut out)
            .outcome
        else {
            rt.abort();
        };
        let part = Part {
            code: opened.code,
            number,
            block: block_in(rt, opened.inner(), number),
            tag: tag_in(opened.inner()),
            payload: opened.payload,
        };
        (part, ticket)
    }

    /// Has the server reply to a request. Returns how many bytes the reply takes at the front of `out`.
    fn reply(&mut self, rt: &impl Abort, ticket: Ticket, part: &Part<'_>, out: &mut [u8]) -> usize
        ensures { result ≤ length out.new }
    {
        let mut text = [0u8; 1100];
        let len = write(rt, Kind::Ack, part, &mut text);
        let plain = parse(text.get(..len).expect(rt, "its bytes")).expect(rt, "a message");
        match self.server.reply(ticket, false, 1, &plain, out) {
            Ok(len) => len,
            Err(_) => rt.abort(),
        }
    }

    /// Passes a response to the client, which delivers it.
    fn take_response<'b>(
        &mut self,
        rt: &impl Abort,
        number: u16,
        datagram: &'b mut [u8],
    ) -> (Part<'b>, Piv) {
        let ClientOutcome::Deliver(opened, request) = self.client.take(0, datagram) else {
            rt.abort();
        };
        let part = Part {
            code: opened.code,
            number,
            block: block_in(rt, opened.inner(), number),
            tag: tag_in(opened.inner()),
            payload: opened.payload,
        };
        (part, request)
    }
}
