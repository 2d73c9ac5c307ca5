//! Rows of a list of observers: each step is a call of osc_observers.

use crate::answer::Answer;
use crate::fields::Fields;
use crate::messages::{address, token};
use crate::steps::Step;
use osc_observers::{Observer, Observers};

/// A list with two places.
type List = Observers<2>;

/// Reads an observer: its number, and its place, which are these fields.
fn observer(fields: &Fields<'_>, number: usize, place: usize) -> Observer {
    Observer {
        number: fields.number(number),
        place: fields.index(place),
    }
}

/// Shows an observer's number and its place, or `none`.
fn show(observer: Option<Observer>, answer: &mut Answer) {
    match observer {
        Some(Observer { number, place }) => {
            answer.word("observer");
            answer.print(number);
            answer.word("at");
            answer.print(place);
        }
        None => answer.word("none"),
    }
}

/// Makes `register NOW FROM TOKEN`: somebody registers.
fn register(list: &mut List, fields: &Fields<'_>, answer: &mut Answer) {
    fields.count(3);
    match list.register(address(fields, 1), token(fields, 2), fields.number(0)) {
        Ok(observer) => show(Some(observer), answer),
        Err(refusal) => answer.refused(refusal),
    }
}

/// Makes `needs-con NOW NUMBER PLACE`: whether the next notification has to be a CON.
fn needs_con(list: &List, fields: &Fields<'_>, answer: &mut Answer) {
    fields.count(3);
    answer.word(
        match list.needs_con(observer(fields, 1, 2), fields.number(0)) {
            Some(true) => "yes",
            Some(false) => "no",
            None => "forgotten",
        },
    );
}

/// Makes `note NOW NUMBER PLACE ID CALL`: a notification is sent, as the CON of that call, or as a NON if that is `none`.
fn note(list: &mut List, fields: &Fields<'_>, answer: &mut Answer) {
    fields.count(5);
    let call = if fields.word(4) == "none" {
        None
    } else {
        Some(fields.number(4))
    };
    let noted = list.note(
        observer(fields, 1, 2),
        fields.message_id(3),
        call,
        fields.number(0),
    );
    answer.word(if noted { "noted" } else { "forgotten" });
}

/// Makes `reset FROM ID`: an RST comes.
fn reset(list: &mut List, fields: &Fields<'_>, answer: &mut Answer) {
    fields.count(2);
    show(list.reset(fields.bytes(0), fields.message_id(1)), answer);
}

/// Makes `fail CALL`: a CON was given up.
fn fail(list: &mut List, fields: &Fields<'_>, answer: &mut Answer) {
    fields.count(1);
    show(list.fail(fields.number(0)), answer);
}

/// Makes `find FROM TOKEN`.
fn find(list: &List, fields: &Fields<'_>, answer: &mut Answer) {
    fields.count(2);
    show(list.find(fields.bytes(0), fields.bytes(1)), answer);
}

/// Makes `forget NUMBER PLACE`.
fn forget(list: &mut List, fields: &Fields<'_>, answer: &mut Answer) {
    fields.count(2);
    let was_there = list.forget(observer(fields, 0, 1));
    answer.word(if was_there { "forgot" } else { "forgotten" });
}

/// Makes `next PLACE`: the first observer at this place or behind it, with its address and its token.
fn next(list: &List, fields: &Fields<'_>, answer: &mut Answer) {
    fields.count(1);
    let found = list.next(fields.index(0));
    show(found, answer);
    if let Some(observer) = found {
        answer.part(list.address(observer));
        answer.part(list.token(observer));
    }
}

/// Makes `whose NUMBER PLACE`: the address and the token of an observer, or `none` for each.
fn whose(list: &List, fields: &Fields<'_>, answer: &mut Answer) {
    fields.count(2);
    let observer = observer(fields, 0, 1);
    answer.part(list.address(observer));
    answer.part(list.token(observer));
}

/// Makes one step of a row.
fn step(list: &mut List, step: &Step<'_>, answer: &mut Answer) {
    let fields = &step.fields;
    match step.verb {
        "register" => register(list, fields, answer),
        "needs-con" => needs_con(list, fields, answer),
        "note" => note(list, fields, answer),
        "reset" => reset(list, fields, answer),
        "fail" => fail(list, fields, answer),
        "find" => find(list, fields, answer),
        "forget" => forget(list, fields, answer),
        "next" => next(list, fields, answer),
        "whose" => whose(list, fields, answer),
        _ => fields.refuse(),
    }
}

/// Makes `observers STEP ; STEP ; ..`.
pub(crate) fn make(steps: &[Step<'_>], answer: &mut Answer) {
    let mut list = List::new();
    for (place, it) in steps.iter().enumerate() {
        if place > 0 {
            answer.word(";");
        }
        step(&mut list, it, answer);
    }
}
