//! The calls of the command, with their options and words, as its help shows them.

/// What an option takes, and what goes with it.
#[derive(Clone, Copy)]
pub(crate) enum Takes {
    /// It is no option, but a word that stands alone. The call needs it.
    Alone,
    /// Nothing.
    Nothing,
    /// Nothing, and it needs this option beside it.
    NothingBeside(&'static str),
    /// One value.
    Value,
    /// One value, and the call needs it.
    Required,
    /// One value, which is this one where it isn't given.
    Default(&'static str),
    /// One value, in place of these two options.
    ValueFor(&'static str, &'static str),
    /// Nothing, and it doesn't go with this option.
    NothingWithout(&'static str),
    /// One of these values.
    OneOf(&'static [&'static str]),
    /// One of these values, and the call needs it.
    RequiredOneOf(&'static [&'static str]),
    /// One of these values, and it may be given more than once.
    AnyOf(&'static [&'static str]),
}

/// An option, or a word that stands alone: its name, what the help calls its value, what it takes, and its help.
pub(crate) struct Word {
    pub(crate) name: &'static str,
    pub(crate) value: &'static str,
    pub(crate) takes: Takes,
    pub(crate) help: &'static str,
}

/// A call: its name, what it does, an example, the options of the context that it derives, and its other options and words.
pub(crate) struct Call {
    pub(crate) name: &'static str,
    pub(crate) about: &'static str,
    pub(crate) example: &'static str,
    pub(crate) context: &'static [Word],
    pub(crate) others: &'static [Word],
}

pub(crate) const ABOUT: &str =
    "oscore 0.1.0: OSCORE (RFC 8613) for CoAP. Protects, opens and explains
datagrams, and runs servers and clients.";

pub(crate) const EXAMPLE: &str = "Example:
  oscore open --secret 0102030405060708090a0b0c0d0e0f10 \\
    --salt 9e7ca92223786340 --sender 01 \\
    44025d1f00003974396c6f63616c686f7374620914ff612f1092f1776f1c1668b3825e";

const EXAMPLE_DERIVE: &str = "Example:
  oscore derive --secret 0102030405060708090a0b0c0d0e0f10 \\
    --salt 9e7ca92223786340 --recipient 01";

const EXAMPLE_PROTECT: &str =
    "A request needs --sequence, a number that was never used. A response needs
--request, and --sequence only where it is to have a Partial IV of its own.
With --proxy the request has Proxy-Uri, and what is printed is for the proxy.

Example:
  oscore protect --secret 0102030405060708090a0b0c0d0e0f10 \\
    --salt 9e7ca92223786340 --recipient 01 --sequence 20 \\
    44015d1f00003974396c6f63616c686f737483747631";

const EXAMPLE_EXPLAIN: &str = "Example:
  oscore explain \\
    44025d1f00003974396c6f63616c686f7374620914ff612f1092f1776f1c1668b3825e";

const EXAMPLE_RUN: &str =
    "Prints what each event came to, one a line. Of a server alone is --restarted,
of a server and a peer --window, of a client and a peer --life. A peer is both
ends of a context, and needs --record; --ahead is of a peer alone. With
--follow each line runs as it comes, without it all lines are read first.

Events of a server, one a line; bytes are hex, and - for none:
  take NOW ECHO MID DATAGRAM        a datagram comes at NOW, in milliseconds;
                                    ECHO (8 bytes) and MID (2) are drawn anew
  reply EVENT own|shared MID PLAIN  the answer to the request of an event,
                                    which is counted from 0
  notify EVENT PLAIN                a notification to the request of an event,
                                    with --allow observe
  drop EVENT                        the request of an event is answered no more
  restart NEXT                      a new life, with NEXT as its next Sender
                                    Sequence Number
  replace SECRET SALT SENDER RECIPIENT ID-CONTEXT fresh|restarted NEXT
                                    another context in the place of this one;
                                    ID-CONTEXT is none where there is none

Events of a client:
  request NOW PLAIN                 a request is sent
  take NOW DATAGRAM                 a datagram comes
  forget TOKEN                      no response to that request is waited for
  restart NEXT                      none is pending, and NEXT is the next number
  replace SECRET SALT SENDER RECIPIENT ID-CONTEXT NEXT
                                    another context in the place of this one

With --numbers FILE, made where it is missing, the line is restart alone, and
there is no replace.

Events of a peer: reply, notify, drop, request and forget as above, and
  take NOW MID DATAGRAM             a datagram comes that may be a request
  fresh MS NOW MID DATAGRAM         the same, but a request is delivered only if
                                    it is known to be sealed at most MS ago, and
                                    else a fresh one is asked for
  challenge EVENT MID               in place of a reply: the request of an event
                                    isn't obeyed, and a fresh one is asked for
  echo NOW PLAIN                    a request is sent, with the Echo value that
                                    was heard last
  hear NOW DATAGRAM                 a datagram comes that may be a response
  follow NOW DATAGRAM               the same, but a challenge is told from every
                                    other response
  advance NOW                       the clocks move

Examples:
  D=44025d1f00003974396c6f63616c686f7374620914ff612f1092f1776f1c1668b3825e
  R=64455d1f00003974ff48656c6c6f20576f726c6421
  printf '%s\\n' \"take 1000 0102030405060708 0001 $D\" \\
    \"take 1001 0102030405060708 0001 $D\" \"reply 0 shared 0001 $R\" |
    oscore run --role server --secret 0102030405060708090a0b0c0d0e0f10 \\
      --salt 9e7ca92223786340 --sender 01

  Q=44015d1f00003974396c6f63616c686f737483747631
  A=64445d1f0000397490ffdbaad1e9a7e7b2a813d3c31524378303cdafae119106
  printf '%s\\n' \"request 0 $Q\" \"take 1 $A\" \"forget 00003974\" |
    oscore run --role client --secret 0102030405060708090a0b0c0d0e0f10 \\
      --salt 9e7ca92223786340 --recipient 01 --sequence 20";

/// The options of a context. This end is the sender. What the context takes part in may be given more than once.
#[rattlefmt::skip]
const CONTEXT: &[Word] = &[
    Word { name: "secret", value: "HEX", takes: Takes::Required, help: "The Master Secret, 1 to 64 bytes" },
    Word { name: "salt", value: "HEX", takes: Takes::Value, help: "The Master Salt, 0 to 64 bytes [default: empty]" },
    Word { name: "sender", value: "HEX", takes: Takes::Value, help: "This end's identifier, 0 to 7 bytes [default: empty]" },
    Word { name: "recipient", value: "HEX", takes: Takes::Value, help: "The other end's, 0 to 7 bytes [default: empty]" },
    Word { name: "id-context", value: "HEX", takes: Takes::Value, help: "The ID Context, 1 to 32 bytes [optional]" },
    Word { name: "allow", value: "WHAT", takes: Takes::AnyOf(&["blocks", "observe"]), help: "What may also pass; both ends need the same [default: none]" },
    Word { name: "tables", value: "", takes: Takes::Nothing, help: "Use the keys by tables: faster, but not in constant time" },
];

/// The option for the number of the request that a response answers.
#[rattlefmt::skip]
const REQUEST: Word = Word { name: "request", value: "M", takes: Takes::Value, help: "Of a response: the number of its request [optional]" };

/// The option that tells more about that request.
#[rattlefmt::skip]
const REGISTERS: Word = Word { name: "registers", value: "", takes: Takes::NothingBeside("request"), help: "Its request registers an observation (RFC 7641)" };

/// The word that is the datagram.
#[rattlefmt::skip]
const DATAGRAM: Word = Word { name: "datagram", value: "DATAGRAM", takes: Takes::Alone, help: "The datagram, in hex" };

#[rattlefmt::skip]
const SEQUENCE: Word = Word { name: "sequence", value: "N", takes: Takes::Value, help: "The Sender Sequence Number to use, below 2^40 [optional]" };

/// The option of a request that goes through a forward proxy.
#[rattlefmt::skip]
const PROXY: Word = Word { name: "proxy", value: "", takes: Takes::NothingWithout("request"), help: "Split its Proxy-Uri, and ask a proxy by Proxy-Scheme" };

/// The options of a run. The file of `--numbers` says how the end begins.
#[rattlefmt::skip]
const RUN: &[Word] = &[
    Word { name: "role", value: "ROLE", takes: Takes::RequiredOneOf(&["server", "client", "peer"]), help: "What this end is" },
    Word { name: "sequence", value: "N", takes: Takes::Default("0"), help: "The next Sender Sequence Number, below 2^40" },
    Word { name: "restarted", value: "", takes: Takes::Nothing, help: "Requests may have come to it in an earlier life" },
    Word { name: "numbers", value: "FILE", takes: Takes::ValueFor("sequence", "restarted"), help: "The file that keeps the Sender Sequence Numbers [optional]" },
    Word { name: "record", value: "FILE", takes: Takes::ValueFor("sequence", "restarted"), help: "The record of a peer: what it sent and received" },
    Word { name: "first", value: "", takes: Takes::NothingBeside("record"), help: "Make the record, of a peer that was never used" },
    Word { name: "window", value: "SIZE", takes: Takes::OneOf(&["1", "32", "64"]), help: "Window size [default: 32]" },
    Word { name: "life", value: "MS", takes: Takes::Value, help: "How many ms a request is pending [default: 60000]" },
    Word { name: "ahead", value: "N", takes: Takes::Value, help: "How many received numbers a peer keeps ahead [default: 0]" },
    Word { name: "follow", value: "", takes: Takes::Nothing, help: "Print each entry as soon as its line is read" },
];

/// All calls, as the help lists them.
#[rattlefmt::skip]
pub(crate) const CALLS: &[Call] = &[
    Call { name: "derive", about: "Prints the keys and the Common IV of a context.", example: EXAMPLE_DERIVE, context: CONTEXT, others: &[] },
    Call { name: "open", about: "Opens a protected request or response, and prints its parts.", example: EXAMPLE, context: CONTEXT, others: &[REQUEST, REGISTERS, DATAGRAM] },
    Call { name: "protect", about: "Protects a plain request or response, and prints it in hex.", example: EXAMPLE_PROTECT, context: CONTEXT, others: &[REQUEST, REGISTERS, SEQUENCE, PROXY, DATAGRAM] },
    Call { name: "explain", about: "Prints what a datagram shows without a key.", example: EXAMPLE_EXPLAIN, context: &[], others: &[DATAGRAM] },
    Call { name: "run", about: "Runs a server, a client or a peer over the events on standard input.", example: EXAMPLE_RUN, context: CONTEXT, others: RUN },
];
