//! Rows of a message layer: each step is a call of osc_message.

use crate::answer::Answer;
use crate::fields::Fields;
use crate::steps::Step;
use osc_coap::{Kind, Token};
use osc_message::{
    Acknowledged, Address, Again, Arrived, Awaits, Call, Due, Incomer, Messages, Outgoing, Taken,
    Way,
};

/// How many polls a step makes at most.
const MOST_POLLS: usize = 8;

/// A layer with two places for messages on their way, and two for messages that came.
type Layer = Messages<2, 2>;

/// Reads an address, of at most 28 bytes.
pub(crate) fn address(fields: &Fields<'_>, place: usize) -> Address {
    let mut address = Address::new();
    if address.try_extend_from_slice(fields.bytes(place)).is_err() {
        fields.refuse();
    }
    address
}

/// Reads a token, of at most 8 bytes.
pub(crate) fn token(fields: &Fields<'_>, place: usize) -> Token {
    let mut token = Token::new();
    if token.try_extend_from_slice(fields.bytes(place)).is_err() {
        fields.refuse();
    }
    token
}

/// Shows the number of a call, and its place.
pub(crate) fn show_call(word: &str, call: Call, answer: &mut Answer) {
    answer.word(word);
    answer.print(call.number);
    answer.word("at");
    answer.print(call.place);
}

/// Shows the number of a message that came, and its place.
pub(crate) fn show_arrived(word: &str, arrived: Arrived, answer: &mut Answer) {
    let Arrived { number, place } = arrived;
    show_call(word, Call { number, place }, answer);
}

/// Makes `send NOW TO ID TOKEN response|ack RANDOM`: a confirmable message is sent first.
fn send(layer: &mut Layer, fields: &Fields<'_>, answer: &mut Answer) {
    fields.count(6);
    let awaits = if fields.word(4) == "ack" {
        Awaits::Acknowledgement
    } else {
        Awaits::Response
    };
    let message = Outgoing {
        to: address(fields, 1),
        message_id: fields.message_id(2),
        token: token(fields, 3),
        awaits,
    };
    match layer
        .exchanges
        .begin(message, fields.number(0), fields.message_id(5))
    {
        Ok(call) => show_call("call", call, answer),
        Err(refusal) => answer.refused(refusal),
    }
}

/// Shows what a message gets that comes again.
pub(crate) fn again(again: Again) -> &'static str {
    match again {
        Again::Nothing => "nothing",
        Again::Acknowledge => "acknowledge",
        Again::Resend => "resend",
    }
}

/// Shows what an empty ACK did.
pub(crate) fn show_acknowledged(acknowledged: Acknowledged, answer: &mut Answer) {
    match acknowledged {
        Acknowledged::Nothing => answer.word("nothing"),
        Acknowledged::Stopped(call) => show_call("stopped", call, answer),
        Acknowledged::Ended(call) => show_call("arrived", call, answer),
    }
}

/// Makes `take NOW FROM DATAGRAM`: a datagram comes.
fn take(layer: &mut Layer, fields: &Fields<'_>, answer: &mut Answer) {
    fields.count(3);
    match layer.take(fields.number(0), fields.bytes(1), fields.bytes(2)) {
        Taken::Request(_) => answer.word("request"),
        Taken::Response(call, _) => show_call("response", call, answer),
        Taken::Repeated(repeated) => {
            answer.word("again");
            answer.word(again(repeated.again));
            answer.print(repeated.place);
        }
        Taken::Acknowledged(acknowledged) => show_acknowledged(acknowledged, answer),
        Taken::Reset(call) => show_call("reset", call, answer),
        Taken::Reject(reset) => {
            answer.word("reject");
            answer.bytes(&reset);
        }
        Taken::Ignored => answer.word("ignored"),
    }
}

/// Makes `heading NOW FROM DATAGRAM`: a request or a response comes. Shows what an ACK of it needs.
fn heading(layer: &mut Layer, fields: &Fields<'_>, answer: &mut Answer) {
    fields.count(3);
    match layer.take(fields.number(0), fields.bytes(1), fields.bytes(2)) {
        Taken::Request(heading) | Taken::Response(_, heading) => {
            answer.bytes(&heading.message_id.to_be_bytes());
            answer.word(if heading.confirmable { "con" } else { "no-con" });
        }
        _ => answer.word("none"),
    }
}

/// Makes `may-send TO`: whether a confirmable message could be sent to this address.
fn may_send(layer: &Layer, fields: &Fields<'_>, answer: &mut Answer) {
    fields.count(1);
    match layer.exchanges.check_begin(fields.bytes(0)) {
        Ok(()) => answer.word("yes"),
        Err(refusal) => answer.refused(refusal),
    }
}

/// Makes `may-note`: whether a message that comes could be kept in mind.
fn may_note(layer: &Layer, answer: &mut Answer) {
    match layer.arrivals.check_note() {
        Ok(()) => answer.word("yes"),
        Err(refusal) => answer.refused(refusal),
    }
}

/// Makes `note NOW FROM ID con|non request|response`: a message that came is kept in mind.
fn note(layer: &mut Layer, fields: &Fields<'_>, answer: &mut Answer) {
    fields.count(5);
    let message = Incomer {
        from: address(fields, 1),
        message_id: fields.message_id(2),
        confirmable: fields.word(3) == "con",
        awaits_answer: fields.word(4) == "request",
    };
    match layer.arrivals.note(message, fields.number(0)) {
        Ok(arrived) => show_arrived("came", arrived, answer),
        Err(refusal) => answer.refused(refusal),
    }
}

/// Shows how an answer is sent.
fn show_way(way: Option<Way>, answer: &mut Answer) {
    answer.word(match way {
        Some(Way::InAck) => "in-ack",
        Some(Way::Separate) => "separate",
        None => "none",
    });
}

/// Makes `way NUMBER PLACE`: how an answer to a message that came would be sent.
fn way(layer: &Layer, fields: &Fields<'_>, answer: &mut Answer) {
    fields.count(2);
    let (number, place) = (fields.number(0), fields.index(1));
    show_way(layer.arrivals.way(Arrived { number, place }), answer);
}

/// Makes `answer NUMBER PLACE`: a message that came is answered.
fn respond(layer: &mut Layer, fields: &Fields<'_>, answer: &mut Answer) {
    fields.count(2);
    let (number, place) = (fields.number(0), fields.index(1));
    show_way(layer.arrivals.answer(Arrived { number, place }), answer);
}

/// Makes `end NUMBER PLACE`: a call ends.
fn end(layer: &mut Layer, fields: &Fields<'_>, answer: &mut Answer) {
    fields.count(2);
    let (number, place) = (fields.number(0), fields.index(1));
    let ended = layer.exchanges.end(Call { number, place });
    answer.word(if ended { "ended" } else { "not-there" });
}

/// Shows one thing that is to be sent, or has ended, and to whom it goes. Returns whether there was one.
fn show_due(layer: &Layer, due: Due, answer: &mut Answer) -> bool {
    match due {
        Due::Nothing => return false,
        Due::Resend(call) => {
            show_call("resend", call, answer);
            answer.part(layer.exchanges.address(call.place));
        }
        Due::Failed(call) => show_call("failed", call, answer),
        Due::Acknowledge(arrived) => {
            show_arrived("acknowledge", arrived, answer);
            if let Some((from, message_id)) = layer.arrivals.sender(arrived.place) {
                answer.bytes(from);
                answer.bytes(&message_id.to_be_bytes());
            }
        }
    }
    true
}

/// Makes `poll NOW` until nothing is left to be done.
pub(crate) fn poll(layer: &mut Layer, fields: &Fields<'_>, answer: &mut Answer) {
    fields.count(1);
    for _ in 0..MOST_POLLS {
        let due = layer.poll(fields.number(0));
        if !show_due(layer, due, answer) {
            return answer.word("rest");
        }
    }
}

/// Makes `wake`: the moment before which nothing is to be done, or `never`.
pub(crate) fn wake(layer: &Layer, answer: &mut Answer) {
    match layer.wake() {
        u64::MAX => answer.word("never"),
        moment => answer.print(moment),
    }
}

/// Shows a Message ID, or `none`.
fn show_id(id: Option<u16>, answer: &mut Answer) {
    match id {
        Some(id) => answer.bytes(&id.to_be_bytes()),
        None => answer.word("none"),
    }
}

/// Makes `id NOW`: the next Message ID is given.
fn give(layer: &mut Layer, fields: &Fields<'_>, answer: &mut Answer) {
    fields.count(1);
    show_id(layer.ids.give(fields.number(0)), answer);
}

/// Makes `next NOW`: the next Message ID, which isn't given.
fn next(layer: &Layer, fields: &Fields<'_>, answer: &mut Answer) {
    fields.count(1);
    show_id(layer.ids.next(fields.number(0)), answer);
}

/// Makes one step of a row.
fn step(layer: &mut Layer, step: &Step<'_>, answer: &mut Answer) {
    let fields = &step.fields;
    match step.verb {
        "send" => send(layer, fields, answer),
        "may-send" => may_send(layer, fields, answer),
        "take" => take(layer, fields, answer),
        "heading" => heading(layer, fields, answer),
        "note" => note(layer, fields, answer),
        "may-note" => may_note(layer, answer),
        "answer" => respond(layer, fields, answer),
        "way" => way(layer, fields, answer),
        "end" => end(layer, fields, answer),
        "poll" => poll(layer, fields, answer),
        "wake" => wake(layer, answer),
        "id" => give(layer, fields, answer),
        "next" => next(layer, fields, answer),
        _ => fields.refuse(),
    }
}

/// Makes `messages begin RANDOM NOW ; STEP ; ..`: the Message IDs begin behind RANDOM, at this moment.
pub(crate) fn make(steps: &[Step<'_>], answer: &mut Answer) {
    let Some((first, rest)) = steps.split_first() else {
        return;
    };
    first.fields.count(2);
    if first.verb != "begin" {
        first.fields.refuse();
    }
    let mut layer = Layer::new(first.fields.message_id(0), first.fields.number(1));
    for (place, it) in rest.iter().enumerate() {
        if place > 0 {
            answer.word(";");
        }
        step(&mut layer, it, answer);
    }
}
